// The configuration that a table describes: what the records of an accepted table mean, the length of an I-PDU, and whether an
// object is signed.
#![tactic(auto)]

mod decode;

pub use decode::{decode_ipdu, decode_object, ipdu_length, is_signed};

// Whether an I-PDU or an object is sent or received.
#[derive(Clone, Copy, PartialEq, Eq)]
pub enum Direction {
    Send,
    Receive,
}

// The transmission mode of a send I-PDU.
#[derive(Clone, Copy, PartialEq, Eq)]
pub enum Mode {
    Direct,
    Periodic,
    Mixed,
}

// The transfer property of a send object.
#[derive(Clone, Copy, PartialEq, Eq)]
pub enum Transfer {
    Triggered,
    Pending,
}

// An I-PDU. The deadline is D of a send I-PDU and R of a receive I-PDU, in ticks, as are all its times.
#[derive(Clone, Copy)]
pub struct Ipdu {
    pub direction: Direction,
    pub length: bits::ByteLength,
    pub mode: Mode,
    pub period: u32,
    pub offset: u32,
    pub minimum_delay: u32,
    pub deadline: u32,
    pub first_deadline: u32,
}

// A message object. An I-PDU or sending object of 255 is none. A signed one's values are two's complement. `at` is how far
// along its order's walk the start bit stands; a depth of 0 is unqueued.
#[derive(Clone, Copy)]
pub struct Object {
    pub direction: Direction,
    pub ipdu: table::IpduNumber,
    pub sender: table::ObjectNumber,
    pub order: bits::Order,
    pub signed: bool,
    pub at: u32,
    pub size: bits::BitSize,
    pub transfer: Transfer,
    pub depth: u32,
    pub filter: filter::Filter,
    pub initial: u32,
}
