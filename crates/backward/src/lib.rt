// What listing backward answers (docs/REFERENCE.md, "Calls"). What it means is in specs/, its theory in proofs/.
#![tactic(auto)]

// What was listed of the kept clauses that a given one subsumes: how many numbers, and the candidates tried in all.
#[derive(Clone, Copy)]
pub struct Listed {
    pub count: usize,
    pub candidates: u64,
}
