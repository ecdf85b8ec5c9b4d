// The query: what is asked of a tree, and the answer (docs/REFERENCE.md, "Calls").
#![tactic(auto)]

mod ask;
mod top;

pub use ask::{decide, query, told};
