// One message object: filtering, delivery, its queue, its marks, and the bits of an object in its I-PDU. Its functions work on an accepted
// table and a working memory that was found in range.
#![tactic(auto)]

mod objects;

pub use objects::{deliver, filter_sent, initialise, pack, unpack};

// The marks of an object, added. The numbers are those that the C interface returns.
pub const ARRIVED: u32 = 1;

pub const SENT: u32 = 2;

pub const RECEIVE_ERROR: u32 = 4;

pub const SEND_ERROR: u32 = 8;
