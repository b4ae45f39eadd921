// No code: W-206 by examples (specs/SheetCases), proved by computation (proofs/SheetCases).

#![tactic(auto)]
