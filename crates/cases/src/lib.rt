// Proved cases: definitions in specs/, proofs in proofs/, no code.

#![tactic(auto)]
