// The table of I-PDUs and message objects: its records, and the check that every call makes (document 01, "The table").
#![tactic(auto)]

mod records;
mod rules;
mod search;

pub use records::{header_counts, ipdu_record, object_record};
pub use rules::{header_right, order_of};
pub use search::{check, number_of, place_of};

// The most I-PDUs and objects that a table has, the most values that its queues hold together, and the number that stands for
// no I-PDU or no sending object.
pub const MOST_IPDUS: u32 = 32;

pub const MOST_OBJECTS: u32 = 128;

pub const MOST_QUEUED: u32 = 512;

pub const NONE: u32 = 255;

// The kind of a send object and the direction of a send I-PDU; of a receive object and a receive I-PDU. They are numbers of raw records,
// as `IpduRecord` and `ObjectRecord` have them; `config::Direction` is what they mean in a table that was accepted.
pub const SENDING: u32 = 1;

pub const RECEIVING: u32 = 2;

// Sizes in bytes: of the header and the records, and of the largest table.
pub const HEADER_SIZE: usize = 16;

pub const IPDU_SIZE: usize = 16;

pub const OBJECT_SIZE: usize = 32;

pub const LARGEST: usize = 4624;

// The number of a message object, and of an I-PDU: counted separately.
#[derive(Clone, Copy, PartialEq, Eq, Debug)]
pub struct ObjectNumber(pub u32);

#[derive(Clone, Copy, PartialEq, Eq, Debug)]
pub struct IpduNumber(pub u32);

// How many I-PDUs and objects a table has, from its header. A table's bytes and its counts are passed apart. A struct of both was tried: it
// takes one clause from 16 of 36 functions, the clauses name both by a path and get a fifth longer, and no proof gets shorter.
#[derive(Clone, Copy)]
pub struct Counts {
    pub ipdus: u32,
    pub objects: u32,
}

// The bytes of an I-PDU record, in their order. `zero_3` and `zero_14` are the bytes that have to be zero.
#[derive(Clone, Copy)]
pub struct IpduRecord {
    pub direction: u32,
    pub length: u32,
    pub mode: u32,
    pub zero_3: u32,
    pub period: u32,
    pub offset: u32,
    pub minimum_delay: u32,
    pub deadline: u32,
    pub first_deadline: u32,
    pub zero_14: u32,
}

// The bytes of an object record, in their order.
#[derive(Clone, Copy)]
pub struct ObjectRecord {
    pub kind: u32,
    pub ipdu: u32,
    pub sender: u32,
    pub start: u32,
    pub size: u32,
    pub order: u32,
    pub transfer: u32,
    pub depth: u32,
    pub filter: u32,
    pub zero_9: u32,
    pub zero_10: u32,
    pub initial: u32,
    pub first: u32,
    pub second: u32,
    pub zero_24: u64,
}

// What an object record refers to: the direction and length of its I-PDU and the kind of its sending object, 0 where there is
// none. For the rules' definition alone; the code looks where the record refers to.
#[derive(Clone, Copy)]
pub struct References {
    pub direction: u32,
    pub length: u32,
    pub sender_kind: u32,
}

// The first wrong record of a table, which the check names.
#[derive(Clone, Copy, PartialEq, Eq, Debug)]
pub enum WrongRecord {
    Header,
    Ipdu(IpduNumber),
    Object(ObjectNumber),
}
