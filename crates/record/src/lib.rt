// What the program's input means: its records, what becomes of each, and the text that is printed (docs/REFERENCE.md, "The program").
#![tactic(auto)]

use tree::Refusal;

// The setting of a run: `Back` is backward striking, where a record that goes in takes out the kept clauses that it subsumes.
#[derive(Clone, Copy)]
pub enum Setting {
    Plain,
    Back,
}

// What becomes of a record: kept, with the used words of the tree; struck, with the covering number and the candidates; refused, and why.
// No Result: a refusal ends nothing here, it is one of three lines and totals.
#[derive(Clone, Copy)]
pub enum Outcome {
    Kept(u64),
    Struck(u32, u64),
    Refused(Refusal),
}

// How many records were read, and how many of them are kept, were struck and refused, and were kept once and are removed.
#[derive(Clone, Copy, Default)]
pub struct Totals {
    pub records: u64,
    pub kept: u64,
    pub struck: u64,
    pub refused: u64,
    pub removed: u64,
}

// What came of a record: its outcome, and how many numbers at the beginning of a list it takes out.
#[derive(Drop)]
pub struct Came {
    pub outcome: Outcome,
    pub removed: usize,
}

// The words that a run lends, beside those of a clause.
#[derive(Drop)]
pub struct Lent {}

impl Lent {
    // The words of the tree's slice.
    pub const TREE: usize = 0x2000;
    // The marks: a byte for each number that a record can have.
    pub const MARKS: usize = 0x1_0000;
}

// The mark of a number, a byte and no enum: a run is lent zeros, and the definitions and claims (`marked`, `shown_from`, `WholeInput`) speak of numbers.
#[derive(Drop)]
pub struct Mark {}

impl Mark {
    // It is taken.
    pub const TAKEN: u8 = 1;
    // It was taken, and its clause is removed.
    pub const WAS_TAKEN: u8 = 2;
}
