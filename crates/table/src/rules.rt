// When the header and a record are right by themselves. A record is read where it lies, from byte `a` of the table on, each byte
// where a rule first asks for it, and bytes that have to be zero together with their neighbours. A rule is a test that returns, so that each
// has a law of its own.
ghost use Rattle.std.specs.Prelude.{◌||◌, ◌≡◌, ◌+◌, ◌*◌, ◌≤◌, ◌<◌, ltb, eqb, length};
ghost use Rattle.memory.specs.Search.{pick};
ghost use Rattle.table.specs.Records.{sending, receiving, absent, ipdu_record_at, object_record_at, object_record};
ghost use Rattle.table.specs.Rules.{offsets_right, header_right, ipdu_right, order_of, references, object_right};
ghost use Rattle.table.specs.Check.{Shape};
ghost use Rattle.table.specs.Inner.{Begun, Filtered, IpdusRight, filter_field, place_field, transfer_and_depth};

use super::{
    Counts, HEADER_SIZE, IPDU_SIZE, IpduNumber, MOST_IPDUS, MOST_OBJECTS, NONE, OBJECT_SIZE,
    RECEIVING, SENDING,
};
use bits::{BitSize, ByteLength, Order};

// Whether the header is right, for a slice of any length.
#[tactic(auto, unfolding(crate::specs::Rules::header_right))]
pub fn header_right(t: &[u8]) -> bool
    ensures { result ≡ header_right t.now }
{
    if t.len() < HEADER_SIZE {
        return false;
    }
    offsets_right(t, super::header_counts(t))
}

#[tactic(auto, unfolding(crate::specs::Rules::offsets_right))]
fn offsets_right(t: &[u8], c: Counts) -> bool
    requires { 16 ≤ length t.now }
    ensures { result ≡ offsets_right t.now c }
{
    let n = c.ipdus as usize;
    let m = c.objects as usize;
    let objects = HEADER_SIZE + IPDU_SIZE * n;
    let end = objects + OBJECT_SIZE * m;
    (c.ipdus <= MOST_IPDUS)
        & (c.objects <= MOST_OBJECTS)
        & (memory::read16(t, 4) as usize == HEADER_SIZE)
        & (memory::read16(t, 6) as usize == objects)
        & (memory::read16(t, 8) as usize == end)
        & (memory::read16(t, 10) == 0)
        & (memory::read32(t, 12) == 0)
        & (t.len() == end)
}

// Whether an I-PDU record is right.
pub fn ipdu_right(t: &[u8], a: usize) -> bool
    requires { a + 16 ≤ length t.now }
    ensures { result ≡ ipdu_right (ipdu_record_at a t.now) }
{
    let length = memory::read8(t, a + 1);
    if length < 1 {
        return false;
    }
    if 8 < length {
        return false;
    }
    if memory::read16(t, a + 14) != 0 {
        return false;
    }
    let direction = memory::read8(t, a);
    if direction == SENDING {
        return send_ipdu(t, a);
    }
    if direction != RECEIVING {
        return false;
    }
    receive_ipdu(t, a)
}

fn send_ipdu(t: &[u8], a: usize) -> bool
    requires { (a + 16 ≤ length t.now) × Begun (ipdu_record_at a t.now) sending }
    ensures { result ≡ ipdu_right (ipdu_record_at a t.now) }
{
    if memory::read16(t, a + 12) != 0 {
        return false;
    }
    if memory::read16(t, a + 10) == 0 {
        return false;
    }
    let mode = memory::read16(t, a + 2);
    if mode == 0 {
        return memory::read32(t, a + 4) == 0;
    }
    if memory::read16(t, a + 4) == 0 {
        return false;
    }
    if memory::read16(t, a + 6) == 0 {
        return false;
    }
    if mode == 2 {
        return true;
    }
    if mode != 1 {
        return false;
    }
    memory::read16(t, a + 8) == 0
}

// Mode, period, offset and minimum delay lie in the eight bytes from byte 2 on.
fn receive_ipdu(t: &[u8], a: usize) -> bool
    requires { (a + 16 ≤ length t.now) × Begun (ipdu_record_at a t.now) receiving }
    ensures { result ≡ ipdu_right (ipdu_record_at a t.now) }
{
    if memory::read64(t, a + 2) != 0 {
        return false;
    }
    if memory::read16(t, a + 12) == 0 {
        return true;
    }
    memory::read16(t, a + 10) != 0
}

// The byte order that byte 5 of an object record stands for; from 2 on it is that of a signed object. Any number is one, so that
// a conversion that may fail says no more.
pub fn order_of(order: u32) -> Order
    ensures { result ≡ order_of order }
{
    if order % 2 == 0 {
        Order::Little
    } else {
        Order::Big
    }
}

// Whether an object record is right by itself, in a table whose I-PDU records are right.
pub fn object_right(t: &[u8], c: Counts, a: usize) -> bool
    requires shape { Shape t.now c }
    requires ipdus_right { IpdusRight t.now c }
    requires a_in_bounds { a + 32 ≤ length t.now }
    ensures { result ≡ object_right (object_record_at a t.now) (references t.now c (object_record_at a t.now)) }
{
    if memory::read64(t, a + 24) != 0 {
        return false;
    }
    if !filter_right(t, a) {
        return false;
    }
    let k = memory::read8(t, a + 1);
    let n = c.ipdus;
    if k < n {
        return within_ipdu(t, c, a, IpduNumber(k));
    }
    without_ipdu(t, c, a)
}

// The filter's number, with the three bytes above it, and its constants.
fn filter_right(t: &[u8], a: usize) -> bool
    requires { a + 32 ≤ length t.now }
    ensures { result ≡ filter_field (object_record_at a t.now) }
{
    let number = memory::read32(t, a + 8);
    if memory::read64(t, a + 16) == 0 {
        return number <= 13;
    }
    filter::filter_right(number, memory::read32(t, a + 16), memory::read32(t, a + 20))
}

// An object of this I-PDU.
fn within_ipdu(t: &[u8], c: Counts, a: usize, number: IpduNumber) -> bool
    requires shape { Shape t.now c }
    requires ipdus_right { IpdusRight t.now c }
    requires a_in_bounds { (a + 32 ≤ length t.now) × Filtered (object_record_at a t.now) × (number.0 ≡ (object_record_at a t.now).ipdu) × (number.0 < c.ipdus) }
    ensures { result ≡ object_right (object_record_at a t.now) (references t.now c (object_record_at a t.now)) }
{
    let p = HEADER_SIZE + IPDU_SIZE * (number.0 as usize);
    let kind = memory::read8(t, a);
    if memory::read8(t, p) != kind {
        return false;
    }
    if memory::read8(t, a + 2) != NONE {
        return false;
    }
    if !place_right(t, a, ByteLength(memory::read8(t, p + 1))) {
        return false;
    }
    transfer_right(t, a, kind)
}

// The bits of an object in an I-PDU of this length.
fn place_right(t: &[u8], a: usize, bytes: ByteLength) -> bool
    requires { (a + 32 ≤ length t.now) × (bytes.0 ≤ 8) }
    ensures { result ≡ place_field (object_record_at a t.now) bytes.0 }
{
    let size = BitSize(memory::read8(t, a + 4));
    let bits = size.0;
    if bits < 1 {
        return false;
    }
    if 32 < bits {
        return false;
    }
    let start = memory::read8(t, a + 3);
    let order = memory::read8(t, a + 5);
    let end = 8 * bytes.0;
    if 3 < order {
        return false;
    }
    if order % 2 == 0 {
        return start + bits <= end;
    }
    if end <= start {
        return false;
    }
    bits::position(Order::Big, start) + bits <= 64
}

// The transfer property of a send object, which has no queue, and the queue of a receive object, which has no such property.
fn transfer_right(t: &[u8], a: usize, kind: u32) -> bool
    requires { (a + 32 ≤ length t.now) × (1 ≤ kind) × (kind ≤ 2) }
    ensures { result ≡ transfer_and_depth (object_record_at a t.now) kind }
{
    let both = memory::read16(t, a + 6);
    if both == 0 {
        return true;
    }
    if kind == SENDING {
        return both <= 1;
    }
    (memory::read8(t, a + 6) == 0) & (memory::read8(t, a + 7) <= 16)
}

// An object outside any I-PDU.
fn without_ipdu(t: &[u8], c: Counts, a: usize) -> bool
    requires shape { Shape t.now c }
    requires a_in_bounds { (a + 32 ≤ length t.now) × Filtered (object_record_at a t.now) × (c.ipdus ≤ (object_record_at a t.now).ipdu) }
    ensures { result ≡ object_right (object_record_at a t.now) (references t.now c (object_record_at a t.now)) }
{
    if memory::read8(t, a + 1) != NONE {
        return false;
    }
    if memory::read8(t, a + 3) != 0 {
        return false;
    }
    if memory::read8(t, a + 4) != 32 {
        return false;
    }
    let order = memory::read8(t, a + 5);
    if (order != 0) & (order != 2) {
        return false;
    }
    let kind = memory::read8(t, a);
    let sender = memory::read8(t, a + 2);
    if kind == SENDING {
        if sender != NONE {
            return false;
        }
        return transfer_right(t, a, kind);
    }
    if kind != RECEIVING {
        return false;
    }
    if !transfer_right(t, a, kind) {
        return false;
    }
    sender_right(t, c, sender)
}

// A sender is none, or one of the table's send objects.
fn sender_right(t: &[u8], c: Counts, sender: u32) -> bool
    requires { Shape t.now c }
    ensures { result ≡ (eqb sender absent || eqb (pick (ltb sender c.objects) (object_record t.now c.ipdus sender).kind 0) sending) }
{
    if sender == NONE {
        return true;
    }
    let m = c.objects;
    if m <= sender {
        return false;
    }
    let n = c.ipdus as usize;
    let i = sender as usize;
    memory::read8(t, HEADER_SIZE + IPDU_SIZE * n + OBJECT_SIZE * i) == SENDING
}
