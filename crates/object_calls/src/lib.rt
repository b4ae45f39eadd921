// The calls that are given an object: send, receive, status, marks, clear marks and initialise, behind the checks.
#![tactic(auto)]

mod objects;
mod sending;

pub use objects::{clear_marks, initialise, marks, receive, status};
pub use sending::send;
