// No code: W-205 by examples, by computation and from the claims.

#![tactic(auto)]
