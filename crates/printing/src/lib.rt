// What is written to standard output: text, and the tally sheet in blocks (docs/REFERENCE.md, "The program").
#![tactic(auto)]

mod tally;
mod writing;

pub use tally::write_tally;
pub use writing::{hand_on, report};

// Why the reads of a run have ended.
#[derive(Clone, Copy)]
pub enum End {
    // One said that there is no more.
    NoMore,
    // One failed.
    Unread,
}

// The meters of a run, lent to every function that reads or writes: only those beside the system's calls move them.
#[derive(Clone, Copy, Default)]
pub struct Meters {
    // The bytes that the reads delivered.
    pub read: u64,
    // The reads that were made.
    pub reads: u64,
    // The bytes that were handed on to be written.
    pub handed: u64,
    // Whether a write has failed.
    pub failed: bool,
    // Why the reads have ended, once they have.
    pub ended: Option<End>,
}

// A block of the tally sheet.
#[derive(Drop)]
struct Block {}

impl Block {
    // The numbers whose rows it has.
    const NUMBERS: usize = 0x2000;
}
