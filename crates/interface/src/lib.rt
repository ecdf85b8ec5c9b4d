// What the C interface means and what is claimed of it: no code. The definitions and claims are in specs/, their theory in proofs/;
// `codetree` has the functions, and their contracts carry the claims.
#![tactic(auto)]
