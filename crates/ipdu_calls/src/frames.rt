// Indication and confirm.
ghost use Rattle.std.specs.Prelude.{true, [], ◌≡◌, ◌+◌, ◌≤◌, ◌<◌, length};
ghost use Rattle.memory.specs.Bytes.{replaced};
ghost use Rattle.memory.specs.Search.{pick};
ghost use Rattle.state.specs.Ranges.{Ready};
ghost use Rattle.calls.specs.Answers.{outcome};
ghost use Rattle.calls.specs.Calls.{indication_of, indication_in, confirm_in};

use calls::{Answer, Refusal, Success};
use message::{RECEIVE_ERROR, SEND_ERROR};
use state::SLOTS;
use table::{Counts, IpduNumber, RECEIVING, SENDING};

// Takes over the bytes of a receive I-PDU, or notes that they were not received.
pub fn indication(
    t: &[u8],
    c: Counts,
    m: &mut [u8],
    number: IpduNumber,
    good: bool,
    bytes: &[u8],
) -> Answer
    requires { Ready t.now c m.old }
    ensures { outcome result m.new [] ≡ indication_in t.now c number.0 good bytes.now m.old }
{
    if !calls::is_ipdu(t, c, RECEIVING, number) {
        return Err(Refusal::WrongId);
    }
    if !good {
        delivery::mark_objects(t, c, m, number, RECEIVE_ERROR);
        return Ok(Success::Done(0));
    }
    good_indication(t, c, m, number, bytes)
}

fn good_indication(t: &[u8], c: Counts, m: &mut [u8], number: IpduNumber, bytes: &[u8]) -> Answer
    requires ready { Ready t.now c m.old }
    requires number_lt_ipdus { number.0 < c.ipdus }
    ensures { outcome result m.new [] ≡ indication_of true t.now c number.0 bytes.now m.old }
{
    let p = config::decode_ipdu(t, number);
    let size = p.length.0 as usize;
    if bytes.len() != size {
        return Err(Refusal::WrongLength);
    }
    let at = SLOTS + 8 * (number.0 as usize);
    put_frame(m, at, bytes);
    delivery::deliver_frame(t, c, m, number);
    transmission::set_timer(m, number, p);
    Ok(Success::Done(0))
}

// Puts the bytes of a frame, at most eight, into memory from byte `at` on. The loop has two ends: with one, as in `copy_from_slice`, a compiler
// would make vector code of it that is longer and no faster here.
fn put_frame(m: &mut [u8], at: usize, bytes: &[u8])
    requires { (at + length bytes.now ≤ length m.old) × (length bytes.now ≤ 8) }
    ensures { m.new ≡ replaced at bytes.now m.old }
{
    for i in 0..8 {
        if bytes.len() <= i {
            return;
        }
        m[at + i] = bytes[i];
    }
}

// Closes the open request of a send I-PDU.
pub fn confirm(t: &[u8], c: Counts, m: &mut [u8], number: IpduNumber, good: bool) -> Answer
    requires { Ready t.now c m.old }
    ensures { outcome result m.new [] ≡ confirm_in t.now c number.0 good m.old }
{
    if !calls::is_ipdu(t, c, SENDING, number) {
        return Err(Refusal::WrongId);
    }
    let s = state::ipdu_state(m, number);
    if s.requested == 0 {
        return Err(Refusal::NotRequested);
    }
    transmission::confirm(m, number, config::decode_ipdu(t, number), good);
    delivery::mark_objects(t, c, m, number, confirm_mark(good));
    Ok(Success::Done(0))
}

// The mark of a good or not good confirm.
fn confirm_mark(good: bool) -> u32
    ensures { result ≡ pick good 2 8 }
{
    if good { message::SENT } else { SEND_ERROR }
}
