// Claims over lists of layer calls: definitions in specs/, proofs in proofs/, no code.

#![tactic(auto)]
