// What a query and a ceiling answer (docs/REFERENCE.md, "Calls"). The definitions of the walk are in specs/, its theory in proofs/.
#![tactic(auto)]

use clause::Clause;
use machine::Sequence;

// What a query finds: covered, with the clause's number and the count; or not covered, with the count.
#[derive(Clone, Copy)]
pub enum Verdict {
    Covered(u32, u64),
    NotCovered(u64),
}

// The witness of a query: the literals chosen, then the positions put.
#[derive(Drop)]
pub struct Witness {}

impl Witness {
    // The least words of a witness.
    pub const WORDS: usize = Clause::LITERALS + Sequence::NUMBERS;
}
