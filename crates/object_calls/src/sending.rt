// Send.
ghost use Rattle.std.specs.Prelude.{◌≡◌, ◌≤◌, length};
ghost use Rattle.state.specs.Layout.{memory_size, area_size};
ghost use Rattle.state.specs.Ranges.{Ready};
ghost use Rattle.calls.specs.Answers.{outcome};
ghost use Rattle.calls.specs.Calls.{HasIpdu, wants, request, send_in};

use calls::{Answer, Refusal, Success};
use config::{Mode, Object, Transfer};
use state::IpduState;
use table::{Counts, NONE, ObjectNumber, SENDING};

// Sends a value of a message object, and answers the word of the I-PDU that was requested.
pub fn send(
    t: &[u8],
    c: Counts,
    m: &mut [u8],
    area: &mut [u8],
    number: ObjectNumber,
    v: u32,
) -> Answer
    requires ready { Ready t.now c m.old }
    requires area_size_in_bounds { area_size ≤ length area.old }
    ensures { outcome result m.new area.new ≡ send_in t.now c number.0 v area.old m.old }
{
    if !calls::is_object(t, c, SENDING, number) {
        return Err(Refusal::WrongId);
    }
    delivery::deliver_inside(t, c, m, number, v);
    let o = config::decode_object(t, c.ipdus, number);
    if !message::filter_sent(m, number, o, v) {
        return Ok(Success::Done(0));
    }
    message::pack(m, o, v);
    request(t, m, area, o)
}

// Makes or postpones the request that a passed value wants, where it wants one.
fn request(t: &[u8], m: &mut [u8], area: &mut [u8], o: Object) -> Answer
    requires has_ipdu { HasIpdu t.now o }
    requires memory_size_in_bounds { (memory_size ≤ length m.old) × (area_size ≤ length area.old) }
    ensures { outcome result m.new area.new ≡ request t.now o area.old m.old }
{
    if !wants(t, o) {
        return Ok(Success::Done(0));
    }
    let p = config::decode_ipdu(t, o.ipdu);
    let s = IpduState {
        wanted: 1,
        ..state::ipdu_state(m, o.ipdu)
    };
    let word = transmission::try_request(m, area, o.ipdu, p, s);
    Ok(Success::Done(word))
}

// Whether a passed value of this object wants a request.
#[tactic(auto, unfolding(calls::specs::Calls::wants))]
fn wants(t: &[u8], o: Object) -> bool
    requires { HasIpdu t.now o }
    ensures { result ≡ wants t.now o }
{
    if o.ipdu.0 == NONE {
        return false;
    }
    let p = config::decode_ipdu(t, o.ipdu);
    (o.transfer == Transfer::Triggered) & (p.mode != Mode::Periodic)
}
