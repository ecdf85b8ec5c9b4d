// The input as it streams in: block after block is read from standard input and fed, and its lines are handed on (docs/REFERENCE.md, "The program").
#![tactic(auto)]

use lines::Longest;
use tree::Tree;

mod blocks;
mod input;

pub use blocks::feed_all;

// The limits of a run.
#[derive(Drop)]
pub struct Limit {}

impl Limit {
    // The most bytes of a block.
    pub const BLOCK: usize = 0x4000;
    // The most bytes that a block prints: the lines of its records, and one for each clause that they remove.
    pub const OUTPUT: usize = Limit::BLOCK * (Longest::LINE + Longest::REMOVAL)
        + Tree::CLAUSES * Longest::REMOVAL;
    // The most reads. A proved loop has to end, and nothing says that the input does: no run uses them up.
    const READS: u64 = 0x100_0000_0000;
}
