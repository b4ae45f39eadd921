// Delivery to the objects with a sending object or an I-PDU, and marks on the objects of an I-PDU, by rising number. Each walk has a turn of its own: they differ in
// the field that they look at and in what they ask for. One walk with a closure would say both again at each call, and is no plainer.
#![tactic(auto)]

mod due;

ghost use Rattle.std.specs.Prelude.{◌≡◌, ◌≤◌, ◌<◌, length};
ghost use Rattle.table.specs.Check.{Shape};
ghost use Rattle.state.specs.Layout.{memory_size};
ghost use Rattle.state.specs.Ranges.{Ready};
ghost use Rattle.message.specs.Objects.{object, deliver};
ghost use Rattle.delivery.specs.Delivery.{inside_turn, deliver_inside, frame_turn, deliver_frame, mark_turn, mark_objects};

pub use due::mark_due;
use state::ObjectState;
use table::{Counts, IpduNumber, ObjectNumber};

// Delivers a whole value to the receive objects of a sending object.
#[tactic(auto, using(memory::proofs::Search::turn_more, crate::proofs::Turns::inside_ready), unfolding(crate::specs::Delivery::deliver_inside),)]
pub fn deliver_inside(t: &[u8], c: Counts, m: &mut [u8], sender: ObjectNumber, v: u32)
    requires { Ready t.now c m.old }
    ensures { m.new ≡ deliver_inside t.now c sender.0 v m.old }
{
    for i in 0..c.objects {
        inside_turn(t, c, m, sender, v, ObjectNumber(i));
    }
}

// Delivers it to one object, where that is a receiver.
fn inside_turn(
    t: &[u8],
    c: Counts,
    m: &mut [u8],
    sender: ObjectNumber,
    v: u32,
    number: ObjectNumber,
)
    requires ready { Ready t.now c m.old }
    requires number_lt_objects { number.0 < c.objects }
    ensures { m.new ≡ inside_turn t.now c sender.0 v number.0 m.old }
{
    let r = table::object_record(t, c.ipdus, number);
    if r.sender != sender.0 {
        return;
    }
    deliver_to(t, c, m, number, v);
}

// Delivers a value to an object. It is decoded here, so that one copy of the code serves both walks.
fn deliver_to(t: &[u8], c: Counts, m: &mut [u8], number: ObjectNumber, v: u32)
    requires ready { Ready t.now c m.old }
    requires number_lt_objects { number.0 < c.objects }
    ensures { m.new ≡ deliver (object t.now c number.0) number.0 v m.old }
{
    message::deliver(m, number, config::decode_object(t, c.ipdus, number), v);
}

// Delivers to each object of an I-PDU its bits of it.
#[tactic(auto, using(memory::proofs::Search::turn_more, crate::proofs::Turns::frame_ready), unfolding(crate::specs::Delivery::deliver_frame),)]
pub fn deliver_frame(t: &[u8], c: Counts, m: &mut [u8], ipdu: IpduNumber)
    requires ready { Ready t.now c m.old }
    requires ipdu_lt_ipdus { ipdu.0 < c.ipdus }
    ensures { m.new ≡ deliver_frame t.now c ipdu.0 m.old }
{
    for i in 0..c.objects {
        frame_turn(t, c, m, ipdu, ObjectNumber(i));
    }
}

// Delivers to one object, where that is in the I-PDU.
fn frame_turn(t: &[u8], c: Counts, m: &mut [u8], ipdu: IpduNumber, number: ObjectNumber)
    requires ready { Ready t.now c m.old }
    requires number_lt_objects { number.0 < c.objects }
    requires ipdu_lt_ipdus { ipdu.0 < c.ipdus }
    ensures { m.new ≡ frame_turn t.now c ipdu.0 number.0 m.old }
{
    let r = table::object_record(t, c.ipdus, number);
    if r.ipdu != ipdu.0 {
        return;
    }
    let reading = message::unpack(m, config::decode_object(t, c.ipdus, number));
    deliver_to(t, c, m, number, reading);
}

// Marks each object of an I-PDU.
#[tactic(auto, using(memory::proofs::Search::turn_more), unfolding(crate::specs::Delivery::mark_objects))]
pub fn mark_objects(t: &[u8], c: Counts, m: &mut [u8], ipdu: IpduNumber, mark: u32)
    requires shape { Shape t.now c }
    requires memory_size_in_bounds { memory_size ≤ length m.old }
    ensures { m.new ≡ mark_objects t.now c ipdu.0 mark m.old }
{
    for i in 0..c.objects {
        mark_turn(t, c, m, ipdu, mark, ObjectNumber(i));
    }
}

// Marks one object, where that is in the I-PDU.
#[tactic(auto, unfolding(message::specs::Objects::marked))]
fn mark_turn(t: &[u8], c: Counts, m: &mut [u8], ipdu: IpduNumber, mark: u32, number: ObjectNumber)
    requires shape { Shape t.now c }
    requires memory_size_in_bounds { (memory_size ≤ length m.old) × (number.0 < c.objects) }
    ensures { m.new ≡ mark_turn t.now c ipdu.0 mark number.0 m.old }
{
    let r = table::object_record(t, c.ipdus, number);
    if r.ipdu != ipdu.0 {
        return;
    }
    let s = state::object_state(m, number);
    let next = ObjectState {
        marks: s.marks | mark,
        ..s
    };
    state::set_object_state(m, number, next);
}
