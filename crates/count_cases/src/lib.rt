// No code: the examples of W-203 and their proofs.

#![tactic(auto)]
