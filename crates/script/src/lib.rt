// The lines of a script (W-201): a line's bytes as a command.
#![tactic(auto)]

mod lines;
mod names;

pub use lines::{command_of, feed, frame_of, fresh, spell};
use table::{IpduNumber, ObjectNumber};

// What a line asks for. The bytes of an indication stand beside it.
#[derive(Clone, Copy)]
pub enum Command {
    Start,
    Stop,
    Send(ObjectNumber, u32),
    Initialise(ObjectNumber, u32),
    Object(Ask, ObjectNumber),
    Periodic(bool),
    Indication(IpduNumber, bool),
    Confirm(IpduNumber, bool),
    Tick,
}

// What is asked of one message object.
#[derive(Clone, Copy)]
pub enum Ask {
    Receive,
    Status,
    Marks,
    ClearMarks,
}

// A line so far: the field that it is in, with the fields before.
#[derive(Clone, Copy)]
pub enum Reader {
    Naming(Name),
    First(Name, Numeral),
    Second(Name, Numeral, Numeral),
    Bytes(Name, Numeral, Numeral, Hex),
    TooMany,
}

// A name so far: how many letters, the first eight as a number in base 256, and the next eight. 17 stands for too many. Letters in an
// array of sixteen bytes were tried: each store into it is waited for, and a line takes longer.
#[derive(Clone, Copy, PartialEq, Eq)]
pub struct Name {
    pub letters: u32,
    pub head: u64,
    pub tail: u64,
}

// A decimal field so far; `Negative` is what stands behind a minus.
#[derive(Clone, Copy)]
pub enum Numeral {
    Nothing,
    Number(u32),
    Minus,
    Negative(u32),
    Wrong,
}

// A hex field so far: the value of its digits, of which the last sixteen count, and how many digits there were; from 18 on the
// count goes on between 17 and 18. An Option of a struct was tried: it is eight bytes longer, and a line takes 14 % more instructions.
#[derive(Clone, Copy)]
pub enum Hex {
    Digits(u64, u32),
    NotHex,
}

// The bytes of an indication as a number, the first the most significant. A length of 9 stands for any longer one.
#[derive(Clone, Copy)]
pub struct Frame {
    pub value: u64,
    pub length: usize,
}

// What is kept between two parts of a script: the line that is being read, its number, and whether a line could not be read.
#[derive(Clone, Copy)]
pub struct Progress {
    pub reader: Reader,
    pub line: u64,
    pub ended: bool,
}
