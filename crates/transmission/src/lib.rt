// Requests of I-PDUs: when one is made, postponed and closed, and the bytes handed over with it; the receive timer. Its functions
// work on an accepted table and a working memory that was found in range.
#![tactic(auto)]

mod requests;

pub use requests::{confirm, set_timer, try_request};
