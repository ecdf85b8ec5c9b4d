// Reading a clause back and checking a saved slice (docs/REFERENCE.md, "Calls"): no code. What they mean is in specs/, its theory in proofs/.
#![tactic(auto)]
