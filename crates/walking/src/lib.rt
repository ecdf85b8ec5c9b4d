// The walk over the words of a tree (docs/REFERENCE.md, "Calls").
#![tactic(auto)]

mod below;

pub use below::walk;

// What ends a walk before it has gone through all candidates: a find, at the clause with this number, with this count; a broken word; the budget.
#[derive(Clone, Copy)]
pub enum End {
    Found(u32, u64),
    Broken,
    Spent,
}
