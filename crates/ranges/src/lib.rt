// Whether every stored number is in its range, for a table that was accepted. Numbers are read where they lie, each where a
// range first asks for it.
#![tactic(auto)]

ghost use Rattle.std.specs.Prelude.{not, ◌≡◌, ◌/◌, ◌%◌, ◌≤◌, ◌<◌, length};
ghost use Rattle.memory.specs.Search.{any_below};
ghost use Rattle.table.specs.Records.{most_ipdus, ipdu_record, object_record};
ghost use Rattle.table.specs.Check.{Shape, Right};
ghost use Rattle.config.specs.Decode.{ipdu_of};
ghost use Rattle.state.specs.Layout.{memory_size, ipdu_state, object_state};
ghost use Rattle.ranges.specs.Inner.{request_in_range, period_in_range, nothing_sent, timer_in_range, queue_unit, used_in_range};
ghost use Rattle.state.specs.Ranges.{ipdu_in_range, object_in_range, ipdu_out, object_out, in_range};

use state::{IPDU_ROWS, OBJECT_ROWS, RUNNING};
use table::{Counts, HEADER_SIZE, IPDU_SIZE, IpduNumber, OBJECT_SIZE, ObjectNumber, SENDING};

// Of the eight bytes from byte 8 of an object's row on: all bits but the four marks, the overflow flag and byte 13, which
// nothing uses; and those of them that do not belong to the queue's place and count or to the occurrence.
const EMPTY: u64 = 0xFFFF_00FF_FFFE_F0FF;

const FIXED: u64 = 0xFFFF_0000_00FE_F000;

// One place of the queues, as that word has it in its upper two bytes.
const QUEUE_UNIT: u64 = 0x0001_0000_0000_0000;

// Whether working memory holds numbers that calls over this table may meet.
#[tactic(auto, unfolding(state::specs::Ranges::in_range, state::specs::Layout::running_at))]
pub fn in_range(t: &[u8], c: Counts, m: &[u8]) -> bool
    requires right { Right t.now c }
    requires memory_size_in_bounds { memory_size ≤ length m.now }
    ensures { result ≡ in_range t.now c m.now }
{
    memory::read8(m, RUNNING) <= 1 && ipdus_in_range(t, c, m) && objects_in_range(t, c, m)
}

fn ipdus_in_range(t: &[u8], c: Counts, m: &[u8]) -> bool
    requires shape { Shape t.now c }
    requires memory_size_in_bounds { memory_size ≤ length m.now }
    ensures { result ≡ not (any_below c.ipdus (ipdu_out t.now m.now)) }
{
    for k in 0..c.ipdus {
        if !ipdu_in_range(t, c, m, IpduNumber(k)) {
            return false;
        }
    }
    true
}

fn objects_in_range(t: &[u8], c: Counts, m: &[u8]) -> bool
    requires right { Right t.now c }
    requires memory_size_in_bounds { memory_size ≤ length m.now }
    ensures { result ≡ not (any_below c.objects (object_out t.now c m.now)) }
{
    let objects = HEADER_SIZE + IPDU_SIZE * (c.ipdus as usize);
    let mut queue = 0;
    for i in 0..c.objects {
        let depth = memory::read8(t, objects + OBJECT_SIZE * (i as usize) + 7);
        if !object_in_range(t, c, m, ObjectNumber(i), depth, queue) {
            return false;
        }
        queue += QUEUE_UNIT * (depth as u64);
    }
    true
}

#[tactic(auto, unfolding(state::specs::Ranges::ipdu_in_range, config::specs::Decode::ipdu_of, table::specs::Records::ipdu_record))]
fn ipdu_in_range(t: &[u8], c: Counts, m: &[u8], number: IpduNumber) -> bool
    requires shape { Shape t.now c }
    requires memory_size_in_bounds { (memory_size ≤ length m.now) × (number.0 < c.ipdus) }
    ensures { result ≡ ipdu_in_range (ipdu_of (ipdu_record t.now number.0)) (ipdu_state m.now number.0) }
{
    let i = number.0 as usize;
    if memory::read8(t, HEADER_SIZE + IPDU_SIZE * i) == SENDING {
        request_in_range(t, c, m, number) && period_in_range(t, c, m, number)
    } else {
        nothing_sent(m, number) && timer_in_range(t, c, m, number)
    }
}

// Of a send I-PDU: the flags of a request, the delay, the deadline, and no timer.
#[tactic(auto, unfolding(config::specs::Decode::ipdu_of, table::specs::Records::ipdu_record, state::specs::Layout::ipdu_state))]
fn request_in_range(t: &[u8], c: Counts, m: &[u8], number: IpduNumber) -> bool
    requires shape { Shape t.now c }
    requires memory_size_in_bounds { (memory_size ≤ length m.now) × (number.0 < c.ipdus) }
    ensures { result ≡ request_in_range (ipdu_of (ipdu_record t.now number.0)) (ipdu_state m.now number.0) }
{
    let i = number.0 as usize;
    let a = HEADER_SIZE + IPDU_SIZE * i;
    let row = IPDU_ROWS + 16 * i;
    memory::read8(m, row) <= 1
        && memory::read8(m, row + 1) <= 1
        && memory::read16(m, row + 4) <= memory::read16(t, a + 8)
        && memory::read16(m, row + 6) <= memory::read16(t, a + 10)
        && memory::read16(m, row + 10) == 0
}

// Of a send I-PDU: the period.
#[tactic(auto, unfolding(config::specs::Decode::ipdu_of, table::specs::Records::ipdu_record, state::specs::Layout::ipdu_state))]
fn period_in_range(t: &[u8], c: Counts, m: &[u8], number: IpduNumber) -> bool
    requires shape { Shape t.now c }
    requires memory_size_in_bounds { (memory_size ≤ length m.now) × (number.0 < c.ipdus) }
    ensures { result ≡ period_in_range (ipdu_of (ipdu_record t.now number.0)) (ipdu_state m.now number.0) }
{
    let i = number.0 as usize;
    let a = HEADER_SIZE + IPDU_SIZE * i;
    let row = IPDU_ROWS + 16 * i;
    let running = memory::read8(m, row + 2);
    let countdown = memory::read16(m, row + 8);
    if (running == 0) & (countdown == 0) {
        return true;
    }
    let longest = memory::read16(t, a + 4).max(memory::read16(t, a + 6));
    (running <= 1) & (running <= longest) & (countdown <= longest)
}

// Of a receive I-PDU: all that a send I-PDU has is 0.
fn nothing_sent(m: &[u8], number: IpduNumber) -> bool
    requires { (memory_size ≤ length m.now) × (number.0 < most_ipdus) }
    ensures { result ≡ nothing_sent (ipdu_state m.now number.0) }
{
    let row = IPDU_ROWS + 16 * (number.0 as usize);
    memory::read16(m, row) == 0
        && memory::read8(m, row + 2) == 0
        && memory::read32(m, row + 4) == 0
        && memory::read16(m, row + 8) == 0
}

// Of a receive I-PDU: the timer.
#[tactic(auto, unfolding(config::specs::Decode::ipdu_of, table::specs::Records::ipdu_record, state::specs::Layout::ipdu_state))]
fn timer_in_range(t: &[u8], c: Counts, m: &[u8], number: IpduNumber) -> bool
    requires shape { Shape t.now c }
    requires memory_size_in_bounds { (memory_size ≤ length m.now) × (number.0 < c.ipdus) }
    ensures { result ≡ timer_in_range (ipdu_of (ipdu_record t.now number.0)) (ipdu_state m.now number.0) }
{
    let i = number.0 as usize;
    let a = HEADER_SIZE + IPDU_SIZE * i;
    let timer = memory::read16(m, IPDU_ROWS + 16 * i + 10);
    timer <= memory::read16(t, a + 10) || timer <= memory::read16(t, a + 12)
}

// `queue` is where its queue begins, as a word of the row has it. One comparison decides where the queue is empty at its first
// place and the occurrence is 0.
fn object_in_range(
    t: &[u8],
    c: Counts,
    m: &[u8],
    number: ObjectNumber,
    depth: u32,
    queue: u64,
) -> bool
    requires shape { Shape t.now c }
    requires memory_size_in_bounds { (memory_size ≤ length m.now) × (number.0 < c.objects) × (depth ≡ (object_record t.now c.ipdus number.0).depth) × (queue % queue_unit ≡ 0) }
    ensures { result ≡ object_in_range (object_record t.now c.ipdus number.0) (queue / queue_unit) (object_state m.now number.0) }
{
    let x = memory::read64(m, OBJECT_ROWS + 16 * (number.0 as usize) + 8);
    x & EMPTY == queue || x & FIXED == queue && used_in_range(t, c, m, number, depth)
}

// The queue's place and count, and the occurrence.
#[tactic(auto, unfolding(table::specs::Records::object_record, state::specs::Layout::object_state))]
fn used_in_range(t: &[u8], c: Counts, m: &[u8], number: ObjectNumber, depth: u32) -> bool
    requires shape { Shape t.now c }
    requires memory_size_in_bounds { (memory_size ≤ length m.now) × (number.0 < c.objects) × (depth ≡ (object_record t.now c.ipdus number.0).depth) }
    ensures { result ≡ used_in_range (object_record t.now c.ipdus number.0) (object_state m.now number.0) }
{
    let row = OBJECT_ROWS + 16 * (number.0 as usize);
    let a = HEADER_SIZE + IPDU_SIZE * (c.ipdus as usize) + OBJECT_SIZE * (number.0 as usize);
    memory::read8(m, row + 12) <= depth
        && memory::read8(m, row + 11) <= depth.saturating_sub(1)
        && filter::count_in_range(
            memory::read8(t, a + 8),
            memory::read32(t, a + 16),
            memory::read32(t, a + 20),
            memory::read8(m, row + 8) as u8,
        )
}
