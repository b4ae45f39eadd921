// Rules of document 01 as proved examples: definitions in specs/, proofs in proofs/, no code.

#![tactic(auto)]
