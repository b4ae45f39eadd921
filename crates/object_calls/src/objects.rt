// Receive, status, marks, clear marks and initialise.
ghost use Rattle.std.specs.Prelude.{[], ◌≡◌, ◌+◌, ◌≤◌, ◌<◌, length};
ghost use Rattle.state.specs.Layout.{object_row, object_state};
ghost use Rattle.state.specs.Ranges.{Ready};
ghost use Rattle.queue.specs.Queues.{Held};
ghost use Rattle.calls.specs.Answers.{outcome};
ghost use Rattle.calls.specs.Calls.{initialise_in, limited, receive_of, receive_queued, receive_in, status_of, status_in, marks_in, clear_marks_in};

use calls::{Answer, Refusal, Success};
use state::ObjectState;
use table::{Counts, ObjectNumber, RECEIVING};

// The value of an unqueued object, or the oldest value of a queued one, which is then removed.
pub fn receive(t: &[u8], c: Counts, m: &mut [u8], number: ObjectNumber) -> Answer
    requires { Ready t.now c m.old }
    ensures { outcome result m.new [] ≡ receive_in t.now c number.0 m.old }
{
    if !calls::is_object(t, c, RECEIVING, number) {
        return Err(Refusal::WrongId);
    }
    let r = table::object_record(t, c.ipdus, number);
    if r.depth == 0 {
        let s = state::object_state(m, number);
        return Ok(Success::Done(s.value));
    }
    receive_queued(m, number, r.depth)
}

fn receive_queued(m: &mut [u8], number: ObjectNumber, depth: u32) -> Answer
    requires { Held depth number.0 m.old }
    ensures { outcome result m.new [] ≡ receive_queued depth number.0 m.old }
{
    let s = state::object_state(m, number);
    if s.count == 0 {
        return Err(Refusal::NoMessage);
    }
    let v = queue::oldest(m, number, depth);
    queue::dequeue(m, number, depth);
    limited(s, v)
}

// A value, with the number for a value lost since the last receive.
fn limited(s: ObjectState, v: u32) -> Answer
    ensures { result ≡ limited s v }
{
    if s.overflow == 0 {
        Ok(Success::Done(v))
    } else {
        Ok(Success::Limit(v))
    }
}

// Whether a queued object has a value, and whether one was lost.
pub fn status(t: &[u8], c: Counts, m: &[u8], number: ObjectNumber) -> Answer
    requires { Ready t.now c m.now }
    ensures { outcome result m.now [] ≡ status_in t.now c number.0 m.now }
{
    if !calls::is_object(t, c, RECEIVING, number) {
        return Err(Refusal::WrongId);
    }
    let r = table::object_record(t, c.ipdus, number);
    if r.depth == 0 {
        return Err(Refusal::WrongId);
    }
    status_of(state::object_state(m, number))
}

fn status_of(s: ObjectState) -> Answer
    ensures { result ≡ status_of s }
{
    if s.count == 0 {
        return Err(Refusal::NoMessage);
    }
    limited(s, 0)
}

// The marks of an object.
pub fn marks(t: &[u8], c: Counts, m: &[u8], number: ObjectNumber) -> Answer
    requires { Ready t.now c m.now }
    ensures { outcome result m.now [] ≡ marks_in c number.0 m.now }
{
    if c.objects <= number.0 {
        return Err(Refusal::WrongId);
    }
    let s = state::object_state(m, number);
    Ok(Success::Done(s.marks))
}

// Clears the marks of an object.
pub fn clear_marks(t: &[u8], c: Counts, m: &mut [u8], number: ObjectNumber) -> Answer
    requires { Ready t.now c m.old }
    ensures { outcome result m.new [] ≡ clear_marks_in c number.0 m.old }
{
    if c.objects <= number.0 {
        return Err(Refusal::WrongId);
    }
    let s = state::object_state(m, number);
    state::set_object_state(m, number, ObjectState { marks: 0, ..s });
    Ok(Success::Done(0))
}

// Sets the value of an object, with no filter and no request.
pub fn initialise(t: &[u8], c: Counts, m: &mut [u8], number: ObjectNumber, v: u32) -> Answer
    requires { Ready t.now c m.old }
    ensures { outcome result m.new [] ≡ initialise_in t.now c number.0 v m.old }
{
    if c.objects <= number.0 {
        return Err(Refusal::WrongId);
    }
    message::initialise(m, number, config::decode_object(t, c.ipdus, number), v);
    Ok(Success::Done(0))
}
