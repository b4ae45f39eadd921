// The interaction layer: the calls of document 01 over a table and a working memory that the caller lends. Each checks table,
// memory and numbers itself; a refused one changes no byte.
#![tactic(auto)]

mod checks;
mod objects;
mod starting;

ghost use Rattle.std.specs.Prelude.{[], ◌≡◌};
ghost use Rattle.calls.specs.Answers.{outcome};
ghost use Rattle.layer.specs.Step.{start, stop, send, initialise, receive, status, marks, clear_marks, start_periodic, stop_periodic, indication, confirm, tick, step};

pub use calls::{Answer, Refusal, Success, number_of, value_of};
pub use checks::admit;
pub use objects::{
    clear_marks_admitted, goes_on, marks_admitted, receive_admitted, signed_admitted,
    status_admitted,
};
pub use starting::start;
pub use state::{AREA_SIZE, MEMORY_SIZE};
use table::{IpduNumber, ObjectNumber};

// A number of document 01 and what is returned with it, as C reads them.
#[repr(C)]
#[derive(Clone, Copy)]
pub struct Reply {
    pub number: u32,
    pub value: u32,
}

// Notes that the layer is stopped.
pub fn stop(t: &[u8], m: &mut [u8]) -> Answer
    ensures { outcome result m.new [] ≡ step t.now stop m.old }
{
    checks::admit(t, m, true)?;
    ipdu_calls::stop(&mut m[..MEMORY_SIZE])
}

// Sends a value of a message object. The result has a bit for the I-PDU that was requested; its bytes are in its slot of the
// request area.
pub fn send(t: &[u8], m: &mut [u8], area: &mut [u8], number: ObjectNumber, v: u32) -> Answer
    ensures { outcome result m.new area.new ≡ step t.now (send number.0 v area.old) m.old }
{
    let c = checks::admit(t, m, area.len() >= AREA_SIZE)?;
    object_calls::send(t, c, &mut m[..MEMORY_SIZE], area, number, v)
}

// Sets the value of a message object, with no filter and no request.
pub fn initialise(t: &[u8], m: &mut [u8], number: ObjectNumber, v: u32) -> Answer
    ensures { outcome result m.new [] ≡ step t.now (initialise number.0 v) m.old }
{
    let c = checks::admit(t, m, true)?;
    object_calls::initialise(t, c, &mut m[..MEMORY_SIZE], number, v)
}

// The value of an unqueued receive object, or the oldest value of a queued one, which is then removed.
pub fn receive(t: &[u8], m: &mut [u8], number: ObjectNumber) -> Answer
    ensures { outcome result m.new [] ≡ step t.now (receive number.0) m.old }
{
    let c = checks::admit(t, m, true)?;
    object_calls::receive(t, c, &mut m[..MEMORY_SIZE], number)
}

// Whether a queued object has a value, and whether one was lost since the last receive.
pub fn status(t: &[u8], m: &[u8], number: ObjectNumber) -> Answer
    ensures { outcome result m.now [] ≡ step t.now (status number.0) m.now }
{
    let c = checks::admit(t, m, true)?;
    object_calls::status(t, c, &m[..MEMORY_SIZE], number)
}

// The marks of a message object, added.
pub fn marks(t: &[u8], m: &[u8], number: ObjectNumber) -> Answer
    ensures { outcome result m.now [] ≡ step t.now (marks number.0) m.now }
{
    let c = checks::admit(t, m, true)?;
    object_calls::marks(t, c, &m[..MEMORY_SIZE], number)
}

// Clears the marks of a message object.
pub fn clear_marks(t: &[u8], m: &mut [u8], number: ObjectNumber) -> Answer
    ensures { outcome result m.new [] ≡ step t.now (clear_marks number.0) m.old }
{
    let c = checks::admit(t, m, true)?;
    object_calls::clear_marks(t, c, &mut m[..MEMORY_SIZE], number)
}

// Starts the period of each I-PDU that has one.
pub fn start_periodic(t: &[u8], m: &mut [u8]) -> Answer
    ensures { outcome result m.new [] ≡ step t.now start_periodic m.old }
{
    let c = checks::admit(t, m, true)?;
    ipdu_calls::periodic(t, c, &mut m[..MEMORY_SIZE], true)
}

// Halts the period of each I-PDU that has one.
pub fn stop_periodic(t: &[u8], m: &mut [u8]) -> Answer
    ensures { outcome result m.new [] ≡ step t.now stop_periodic m.old }
{
    let c = checks::admit(t, m, true)?;
    ipdu_calls::periodic(t, c, &mut m[..MEMORY_SIZE], false)
}

// Takes over the bytes of a receive I-PDU, or notes that they were not received.
pub fn indication(t: &[u8], m: &mut [u8], number: IpduNumber, good: bool, bytes: &[u8]) -> Answer
    ensures { outcome result m.new [] ≡ step t.now (indication number.0 good bytes.now) m.old }
{
    let c = checks::admit(t, m, true)?;
    ipdu_calls::indication(t, c, &mut m[..MEMORY_SIZE], number, good, bytes)
}

// Notes that an open request of a send I-PDU was sent, or was not.
pub fn confirm(t: &[u8], m: &mut [u8], number: IpduNumber, good: bool) -> Answer
    ensures { outcome result m.new [] ≡ step t.now (confirm number.0 good) m.old }
{
    let c = checks::admit(t, m, true)?;
    ipdu_calls::confirm(t, c, &mut m[..MEMORY_SIZE], number, good)
}

// Moves all times on by one tick. The result has a bit for each I-PDU that was requested; its bytes are in its slot of the
// request area.
pub fn tick(t: &[u8], m: &mut [u8], area: &mut [u8]) -> Answer
    ensures { outcome result m.new area.new ≡ step t.now (tick area.old) m.old }
{
    let c = checks::admit(t, m, area.len() >= AREA_SIZE)?;
    ipdu_calls::tick(t, c, &mut m[..MEMORY_SIZE], area)
}
