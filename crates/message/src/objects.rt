// One message object: what a filtering, a delivery, a receive and an initialise leave of it.
ghost use Rattle.std.specs.Prelude.{◌≡◌, ◌+◌, ◌≤◌, ◌<◌, length};
ghost use Rattle.table.specs.Records.{most_ipdus};
ghost use Rattle.filter.specs.Filters.{CountFits};
ghost use Rattle.config.specs.declared.Direction.TheVariants.{Send};
ghost use Rattle.state.specs.Layout.{row_size, object_row, object_state, with_object_state};
ghost use Rattle.state.specs.Updates.{with_old, with_value, with_queue};
ghost use Rattle.message.specs.Objects.{Placed, passes_filter, after_filter, delivered, deliver, pack, unpack, initialise_as, initialise};
ghost use Rattle.queue.specs.Queues.{Held};

use super::ARRIVED;
use config::{Direction, Object};
use state::{ObjectState, SLOTS};
use table::{NONE, ObjectNumber};

// Delivers a value to a receive object.
#[tactic(auto, unfolding(crate::specs::Objects::deliver))]
pub fn deliver(m: &mut [u8], number: ObjectNumber, o: Object, v: u32)
    requires held { Held o.depth number.0 m.old }
    requires count_fits { CountFits o.filter (object_state m.old number.0).occurrence }
    ensures { m.new ≡ deliver o number.0 v m.old }
{
    let s = state::object_state(m, number);
    let passed = filter::passes(o.signed, o.filter, v, s.old, s.occurrence);
    queue::enqueue(
        m,
        passed & (s.count < o.depth),
        queue::place_at(o.depth, s, s.count),
        v,
    );
    state::set_object_state(m, number, delivered(passed, o, v, s));
}

// Filters a value on the sending side, and answers whether it passed.
pub fn filter_sent(m: &mut [u8], number: ObjectNumber, o: Object, v: u32) -> bool
    requires row_size_in_bounds { object_row number.0 + row_size ≤ length m.old }
    requires count_fits { CountFits o.filter (object_state m.old number.0).occurrence }
    ensures passed { result ≡ passes_filter o v (object_state m.old number.0) }
    ensures row { m.new ≡ with_object_state m.old number.0 (after_filter result o v (object_state m.old number.0)) }
{
    let s = state::object_state(m, number);
    let passed = filter::passes(o.signed, o.filter, v, s.old, s.occurrence);
    state::set_object_state(m, number, after_filter(passed, o, v, s));
    passed
}

// Packs a value into the object's I-PDU, where it has one. With none its number is `NONE`, as the definition of `config`'s `Object` has it.
#[tactic(auto, unfolding(crate::specs::Objects::pack))]
pub fn pack(m: &mut [u8], o: Object, v: u32)
    requires { Placed o m.old }
    ensures { m.new ≡ pack o v m.old }
{
    let k = o.ipdu.0;
    if k == NONE {
        return;
    }
    bits::pack_slot(m, SLOTS + 8 * (k as usize), o.order, o.at, o.size, v);
}

// The value that an object has in its I-PDU.
#[tactic(auto, unfolding(crate::specs::Objects::unpack))]
pub fn unpack(m: &[u8], o: Object) -> u32
    requires placed { Placed o m.now }
    requires ipdu_lt_most_ipdus { o.ipdu.0 < most_ipdus }
    ensures { result ≡ unpack o m.now }
{
    let k = o.ipdu.0 as usize;
    bits::unpack_slot(m, SLOTS + 8 * k, o.order, o.signed, o.at, o.size)
}

// Sets the value of an object, with no filter and no request.
#[tactic(auto, unfolding(crate::specs::Objects::initialise))]
pub fn initialise(m: &mut [u8], number: ObjectNumber, o: Object, v: u32)
    requires row_size_in_bounds { object_row number.0 + row_size ≤ length m.old }
    requires placed { Placed o m.old }
    ensures { m.new ≡ initialise o number.0 v m.old }
{
    match o.direction {
        Direction::Send => initialise_send(m, number, o, v),
        Direction::Receive => initialise_receive(m, number, v),
    }
}

fn initialise_send(m: &mut [u8], number: ObjectNumber, o: Object, v: u32)
    requires row_size_in_bounds { object_row number.0 + row_size ≤ length m.old }
    requires placed { Placed o m.old }
    ensures { m.new ≡ initialise_as Send o number.0 v m.old }
{
    let s = state::object_state(m, number);
    state::set_object_state(m, number, ObjectState { old: v, ..s });
    pack(m, o, v);
}

fn initialise_receive(m: &mut [u8], number: ObjectNumber, v: u32)
    requires { object_row number.0 + row_size ≤ length m.old }
    ensures { m.new ≡ with_object_state m.old number.0 (with_old v (with_value v (with_queue 0 0 0 (object_state m.old number.0)))) }
{
    let s = state::object_state(m, number);
    let next = ObjectState {
        old: v,
        value: v,
        overflow: 0,
        head: 0,
        count: 0,
        ..s
    };
    state::set_object_state(m, number, next);
}

// The numbers of an object after a filtering.
#[tactic(auto, unfolding(crate::specs::Objects::after_filter))]
fn after_filter(passed: bool, o: Object, v: u32, s: ObjectState) -> ObjectState
    requires { CountFits o.filter s.occurrence }
    ensures { result ≡ after_filter passed o v s }
{
    let counted = ObjectState {
        occurrence: filter::next_count(o.filter, s.occurrence),
        ..s
    };
    if passed {
        ObjectState { old: v, ..counted }
    } else {
        counted
    }
}

// The numbers of an object after a delivery.
#[tactic(auto, unfolding(crate::specs::Objects::delivered, crate::specs::Objects::marked))]
fn delivered(passed: bool, o: Object, v: u32, s: ObjectState) -> ObjectState
    requires { CountFits o.filter s.occurrence }
    ensures { result ≡ delivered passed o v s }
{
    let next = after_filter(passed, o, v, s);
    if !passed {
        next
    } else if o.depth == 0 {
        ObjectState {
            value: v,
            marks: next.marks | ARRIVED,
            ..next
        }
    } else if next.count < o.depth {
        ObjectState {
            count: next.count + 1,
            marks: next.marks | ARRIVED,
            ..next
        }
    } else {
        ObjectState {
            overflow: 1,
            ..next
        }
    }
}
