// What lists of calls and the clause book mean, and what is claimed of them (docs/REFERENCE.md, "Lists of calls"): no code. The definitions and claims are in
// specs/, their theory in proofs/; `replay` runs such lists, and its contract carries the claims.
#![tactic(auto)]
