// Proved cases of scripts: definitions in specs/, proofs in proofs/, no code.

#![tactic(auto)]
