// What a start writes: all of working memory, from the table.
#![tactic(auto)]

ghost use Rattle.std.specs.Prelude.{◌≡◌, ◌+◌, ◌≤◌, ◌<◌, length};
ghost use Rattle.memory.specs.Search.{fold};
ghost use Rattle.table.specs.Check.{Shape, Right};
ghost use Rattle.state.specs.Layout.{row_size, memory_size, object_row};
ghost use Rattle.message.specs.Objects.{Placed};
ghost use Rattle.startup.specs.Start.{idle, first_timer, start_ipdu, unused, start_as, start_object, started};

use config::{Direction, Ipdu, Object};
use state::{IpduState, ObjectState, RUNNING};
use table::{Counts, IpduNumber, ObjectNumber};

// Writes each byte of working memory.
pub fn write_all(t: &[u8], c: Counts, m: &mut [u8])
    requires right { Right t.now c }
    requires m_len { length m.old ≡ memory_size }
    ensures { m.new ≡ started t.now c }
{
    memory::clear(m);
    start_ipdus(t, c, m);
    start_objects(t, c, m);
    memory::write8(m, RUNNING, 1);
}

#[tactic(auto, using(memory::proofs::Search::turn_more))]
fn start_ipdus(t: &[u8], c: Counts, m: &mut [u8])
    requires shape { Shape t.now c }
    requires memory_size_in_bounds { memory_size ≤ length m.old }
    ensures { m.new ≡ fold c.ipdus (start_ipdu t.now) m.old }
{
    for k in 0..c.ipdus {
        let p = config::decode_ipdu(t, IpduNumber(k));
        state::set_ipdu_state(m, IpduNumber(k), idle(first_timer(p)));
    }
}

fn start_objects(t: &[u8], c: Counts, m: &mut [u8])
    requires right { Right t.now c }
    requires memory_size_in_bounds { memory_size ≤ length m.old }
    ensures { m.new ≡ fold c.objects (start_object t.now c) m.old }
{
    let mut first = 0;
    for i in 0..c.objects {
        let o = config::decode_object(t, c.ipdus, ObjectNumber(i));
        start_object(m, ObjectNumber(i), o, first);
        first += o.depth;
    }
}

// Packs or stores the initial value of an object, whose queue begins at place `first` of all queues.
fn start_object(m: &mut [u8], number: ObjectNumber, o: Object, first: u32)
    requires placed { Placed o m.old }
    requires row_size_in_bounds { object_row number.0 + row_size ≤ length m.old }
    ensures { m.new ≡ start_as o.direction o number.0 first m.old }
{
    match o.direction {
        Direction::Send => {
            state::set_object_state(m, number, unused(0, o.initial, first));
            message::pack(m, o, o.initial);
        }
        Direction::Receive => {
            state::set_object_state(m, number, unused(o.initial, o.initial, first));
        }
    }
}

// The receive timer after a start.
fn first_timer(p: Ipdu) -> u32
    ensures { result ≡ first_timer p.direction p }
{
    if p.direction == Direction::Send {
        0
    } else if p.first_deadline == 0 {
        p.deadline
    } else {
        p.first_deadline
    }
}

// The numbers of an I-PDU after a start.
fn idle(timer: u32) -> IpduState
    ensures { result ≡ idle timer }
{
    IpduState {
        requested: 0,
        wanted: 0,
        running: 0,
        delay: 0,
        deadline: 0,
        countdown: 0,
        timer,
    }
}

// The numbers of an object after a start.
fn unused(value: u32, old: u32, queue: u32) -> ObjectState
    ensures { result ≡ unused value old queue }
{
    ObjectState {
        value,
        old,
        occurrence: 0,
        marks: 0,
        overflow: 0,
        head: 0,
        count: 0,
        queue,
    }
}
