// Marks on the objects of all I-PDUs whose time ran out, in one walk.
ghost use Rattle.std.specs.Prelude.{◌≡◌, ◌≤◌, ◌<◌, eqb, length};
ghost use Rattle.memory.specs.Search.{pick};
ghost use Rattle.table.specs.Check.{Shape};
ghost use Rattle.table.specs.Records.{sending};
ghost use Rattle.state.specs.Layout.{memory_size};
ghost use Rattle.message.specs.Objects.{mark_send_error, mark_receive_error};
ghost use Rattle.delivery.specs.Due.{due_turn, mark_due};

use message::{RECEIVE_ERROR, SEND_ERROR};
use state::ObjectState;
use table::{Counts, MOST_IPDUS, ObjectNumber, SENDING};

// Marks the objects of the I-PDUs in a word, whose time ran out.
#[tactic(auto, using(memory::proofs::Search::turn_more), unfolding(crate::specs::Due::mark_due))]
pub fn mark_due(t: &[u8], c: Counts, m: &mut [u8], word: u32)
    requires shape { Shape t.now c }
    requires memory_size_in_bounds { memory_size ≤ length m.old }
    ensures { m.new ≡ mark_due t.now c word m.old }
{
    for i in 0..c.objects {
        due_turn(t, c, m, word, ObjectNumber(i));
    }
}

// Marks one object, where its I-PDU is in the word.
#[tactic(auto, unfolding(message::specs::Objects::marked, bits::specs::Bits::bit))]
fn due_turn(t: &[u8], c: Counts, m: &mut [u8], word: u32, number: ObjectNumber)
    requires shape { Shape t.now c }
    requires memory_size_in_bounds { (memory_size ≤ length m.old) × (number.0 < c.objects) }
    ensures { m.new ≡ due_turn t.now c word number.0 m.old }
{
    let r = table::object_record(t, c.ipdus, number);
    let k = r.ipdu;
    if MOST_IPDUS <= k {
        return;
    }
    if word as u64 / bits::power_of_two(k) % 2 == 0 {
        return;
    }
    let s = state::object_state(m, number);
    let next = ObjectState {
        marks: s.marks | time_error(r.kind),
        ..s
    };
    state::set_object_state(m, number, next);
}

// The error of a time that ran out, by the kind of the object, which is the number in its record: nothing else of it is decoded here.
fn time_error(kind: u32) -> u32
    ensures { result ≡ pick (eqb kind sending) mark_send_error mark_receive_error }
{
    if kind == SENDING {
        SEND_ERROR
    } else {
        RECEIVE_ERROR
    }
}
