// What a script prints: definitions in specs/, laws in proofs/, no code.

#![tactic(auto)]
