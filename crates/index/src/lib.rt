// The index of a tree of clauses (docs/REFERENCE.md, "The program"): for each head of a literal the place of its Check, in the row below the topmost First.
// Here it is made, and queries and insertions go by it; nothing below this crate knows of it.
#![tactic(auto)]

mod by_head;
mod entries;
mod head;
mod indexed;
mod placing;

pub use entries::renew;
pub use indexed::query_indexed;
pub use placing::insert_below;

// An index beside a tree.
#[derive(Drop)]
pub struct Heads {}

impl Heads {
    // How many entries it has: one for each clause word. The entry of a head is the place of its Check among the used words, 0 where there is none.
    pub const ENTRIES: usize = 0x1_0000;
}
