// No code: W-207 by examples, by computation and from the claims.

#![tactic(auto)]
