// Time: the period of an I-PDU, and what a tick does to its stored times. Its functions work on an accepted table and a working
// memory that was found in range.
#![tactic(auto)]

mod periods;
mod ticks;

pub use periods::set_periods;
pub use ticks::{
    deadline_expires, tick_deadline, tick_delay, tick_period, tick_timer, timer_expires,
};
