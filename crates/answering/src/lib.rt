// What becomes of one record: it is asked, and goes in where it is not covered (docs/REFERENCE.md, "The program").
#![tactic(auto)]

mod answering;
mod indexing;
mod striking;

use machine::Sequence;

// The words that a run lends for the clauses that it keeps: their tree, the marks of its numbers, the index of its heads; and the keys of a clause, to
// work in (cleared for each record, they cost the page overfull of bench/ 30% more instructions).
#[derive(Drop)]
pub struct Keeper<'a> {
    pub tree: &'a mut [u64],
    pub marks: &'a mut [u8],
    pub heads: &'a mut [u16],
    pub keys: &'a mut [u64; Sequence::KEYS],
}

// What a query may spend, and a listing.
#[derive(Drop)]
struct Budget {}

impl Budget {
    // The most candidates.
    const CANDIDATES: u64 = 1_000_000_000;
}
