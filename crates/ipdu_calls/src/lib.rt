// The calls about I-PDUs and time: indication, confirm, tick, start and stop periodic, and stop, behind the checks.
#![tactic(auto)]

mod frames;
mod running;
mod ticking;

pub use frames::{confirm, indication};
pub use running::{periodic, stop};
pub use ticking::tick;
