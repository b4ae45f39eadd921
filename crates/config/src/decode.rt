// Records of an accepted table as structs that hold what they mean.
ghost use Rattle.std.specs.Prelude.{◌≡◌, ◌+◌, ◌*◌, ◌≤◌, ◌<◌, length, MatchOption};
ghost use Rattle.table.specs.Records.{object_base, ipdu_record, object_record};
ghost use Rattle.table.specs.Check.{Shape};
ghost use Rattle.config.specs.Decode.{direction_of, mode_of, transfer_of, ipdu_of, object_of, ipdu_length, is_signed};

use super::{Direction, Ipdu, Mode, Object, Transfer};
use bits::{BitSize, ByteLength};
use table::{Counts, IpduNumber, IpduRecord, ObjectNumber, ObjectRecord};

// An I-PDU of the table.
pub fn decode_ipdu(t: &[u8], number: IpduNumber) -> Ipdu
    requires { 16 + 16 * number.0 + 16 ≤ length t.now }
    ensures { result ≡ ipdu_of (ipdu_record t.now number.0) }
{
    ipdu_of(table::ipdu_record(t, number))
}

// A message object of a table of so many I-PDUs, whose start bit lies in a slot.
pub fn decode_object(t: &[u8], ipdus: u32, number: ObjectNumber) -> Object
    requires number_in_bounds { object_base ipdus + 32 * number.0 + 32 ≤ length t.now }
    requires number_bound { (object_record t.now ipdus number.0).start < 64 }
    ensures { result ≡ object_of (object_record t.now ipdus number.0) }
{
    object_of(table::object_record(t, ipdus, number))
}

// The length of an I-PDU for a caller that has nothing but the table: none where that is wrong or has no such I-PDU.
pub fn ipdu_length(t: &[u8], number: IpduNumber) -> Option<ByteLength>
    ensures { MatchOption result (ipdu_length t.now number.0 ≡ 0) (λ length. (length.0 ≡ ipdu_length t.now number.0) × (1 ≤ length.0)) }
{
    let c = table::check(t).ok()?;
    if c.ipdus <= number.0 {
        return None;
    }
    let r = table::ipdu_record(t, number);
    Some(ByteLength(r.length))
}

// Whether there is an object of this number, and it is signed.
#[tactic(auto, unfolding(crate::specs::Decode::is_signed))]
pub fn is_signed(t: &[u8], c: Counts, number: ObjectNumber) -> bool
    requires { Shape t.now c }
    ensures { result ≡ is_signed t.now c number.0 }
{
    number.0 < c.objects && 2 <= table::object_record(t, c.ipdus, number).order
}

// No `From`: an object's takes a `requires`, which a `From` cannot, and the I-PDU's is its like.
#[tactic(auto, unfolding(crate::specs::Decode::ipdu_of))]
fn ipdu_of(r: IpduRecord) -> Ipdu
    ensures { result ≡ ipdu_of r }
{
    Ipdu {
        direction: direction_of(r.direction),
        length: ByteLength(r.length),
        mode: mode_of(r.mode),
        period: r.period,
        offset: r.offset,
        minimum_delay: r.minimum_delay,
        deadline: r.deadline,
        first_deadline: r.first_deadline,
    }
}

#[tactic(auto, unfolding(crate::specs::Decode::object_of))]
fn object_of(r: ObjectRecord) -> Object
    requires { r.start < 64 }
    ensures { result ≡ object_of r }
{
    let order = table::order_of(r.order);
    Object {
        direction: direction_of(r.kind),
        ipdu: IpduNumber(r.ipdu),
        sender: ObjectNumber(r.sender),
        order,
        signed: 2 <= r.order,
        at: bits::position(order, r.start),
        size: BitSize(r.size),
        transfer: transfer_of(r.transfer),
        depth: r.depth,
        filter: filter::filter_of(r.filter, r.first, r.second),
        initial: r.initial,
    }
}

// The numbers of these three are those of a checked record: a `TryFrom` would have an error that never comes.
fn direction_of(n: u32) -> Direction
    ensures { result ≡ direction_of n }
{
    if n == 1 {
        Direction::Send
    } else {
        Direction::Receive
    }
}

fn mode_of(n: u32) -> Mode
    ensures { result ≡ mode_of n }
{
    match n {
        0 => Mode::Direct,
        1 => Mode::Periodic,
        _ => Mode::Mixed,
    }
}

fn transfer_of(n: u32) -> Transfer
    ensures { result ≡ transfer_of n }
{
    if n == 0 {
        Transfer::Triggered
    } else {
        Transfer::Pending
    }
}
