// Working memory: where each number of an I-PDU and of a message object is stored, and what is stored there.
// docs/MEMORY.md is the list of stored numbers.
#![tactic(auto)]

mod rows;

pub use rows::{ipdu_state, object_state, set_ipdu_state, set_object_state};

// The bytes of working memory and of a request area that are used. Both are lent as slices of at least so many: an array would have to be
// exactly so long, and its type would ask more of callers.
pub const MEMORY_SIZE: usize = 8192;

pub const AREA_SIZE: usize = 256;

// The parts of working memory: the byte that says whether the layer runs, and where the others begin.
pub const RUNNING: usize = 0;

pub const IPDU_ROWS: usize = 16;

pub const SLOTS: usize = 528;

pub const OBJECT_ROWS: usize = 784;

pub const QUEUES: usize = 2832;

// The stored numbers of an I-PDU: whether a request is open, is wanted, and whether the period runs; ticks of the minimum
// delay, the deadline, the period's countdown and the receive timer. The flags are the numbers that memory holds, and no `bool`:
// the range check tells 0 and 1 from the others.
#[derive(Clone, Copy)]
pub struct IpduState {
    pub requested: u32,
    pub wanted: u32,
    pub running: u32,
    pub delay: u32,
    pub deadline: u32,
    pub countdown: u32,
    pub timer: u32,
}

// The stored numbers of a message object: its value, the filter's old value and occurrence, its marks, and of its queue
// whether a value was lost, as a number like the flags above, the place of the oldest value, how many there are, and where the
// queue begins.
#[derive(Clone, Copy)]
pub struct ObjectState {
    pub value: u32,
    pub old: u32,
    pub occurrence: u8,
    pub marks: u32,
    pub overflow: u32,
    pub head: u32,
    pub count: u32,
    pub queue: u32,
}
