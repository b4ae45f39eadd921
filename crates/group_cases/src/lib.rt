// Proved examples of the group send. No code.

#![tactic(auto)]
