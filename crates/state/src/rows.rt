// Reading and writing the stored numbers of one I-PDU or one object. A read and a write stand beside each other, a line for each
// number: a list of places that both would follow is longer than the two, and would be gone through when a call runs.
ghost use Rattle.std.specs.Prelude.{◌≡◌, ◌+◌, ◌*◌, ◌≤◌, length};
ghost use Rattle.state.specs.Layout.{row_size, ipdu_row, ipdu_state, with_ipdu_state, object_row, object_state, with_object_state};

use super::{IPDU_ROWS, IpduState, OBJECT_ROWS, ObjectState};
use table::{IpduNumber, ObjectNumber};

// The stored numbers of an I-PDU.
#[tactic(auto, unfolding(crate::specs::Layout::ipdu_state))]
pub fn ipdu_state(m: &[u8], number: IpduNumber) -> IpduState
    requires { ipdu_row number.0 + row_size ≤ length m.now }
    ensures { result ≡ ipdu_state m.now number.0 }
{
    let a = IPDU_ROWS + 16 * (number.0 as usize);
    IpduState {
        requested: memory::read8(m, a),
        wanted: memory::read8(m, a + 1),
        running: memory::read8(m, a + 2),
        delay: memory::read16(m, a + 4),
        deadline: memory::read16(m, a + 6),
        countdown: memory::read16(m, a + 8),
        timer: memory::read16(m, a + 10),
    }
}

// Stores the numbers of an I-PDU.
#[tactic(auto, unfolding(crate::specs::Layout::with_ipdu_state))]
pub fn set_ipdu_state(m: &mut [u8], number: IpduNumber, s: IpduState)
    requires { ipdu_row number.0 + row_size ≤ length m.old }
    ensures { m.new ≡ with_ipdu_state m.old number.0 s }
{
    let a = IPDU_ROWS + 16 * (number.0 as usize);
    memory::write8(m, a, s.requested);
    memory::write8(m, a + 1, s.wanted);
    memory::write8(m, a + 2, s.running);
    memory::write16(m, a + 4, s.delay);
    memory::write16(m, a + 6, s.deadline);
    memory::write16(m, a + 8, s.countdown);
    memory::write16(m, a + 10, s.timer);
}

// The stored numbers of an object.
#[tactic(auto, unfolding(crate::specs::Layout::object_state))]
pub fn object_state(m: &[u8], number: ObjectNumber) -> ObjectState
    requires { object_row number.0 + row_size ≤ length m.now }
    ensures { result ≡ object_state m.now number.0 }
{
    let a = OBJECT_ROWS + 16 * (number.0 as usize);
    ObjectState {
        value: memory::read32(m, a),
        old: memory::read32(m, a + 4),
        occurrence: memory::read8(m, a + 8) as u8,
        marks: memory::read8(m, a + 9),
        overflow: memory::read8(m, a + 10),
        head: memory::read8(m, a + 11),
        count: memory::read8(m, a + 12),
        queue: memory::read16(m, a + 14),
    }
}

// Stores the numbers of an object.
#[tactic(auto, unfolding(crate::specs::Layout::with_object_state))]
pub fn set_object_state(m: &mut [u8], number: ObjectNumber, s: ObjectState)
    requires { object_row number.0 + row_size ≤ length m.old }
    ensures { m.new ≡ with_object_state m.old number.0 s }
{
    let a = OBJECT_ROWS + 16 * (number.0 as usize);
    memory::write32(m, a, s.value);
    memory::write32(m, a + 4, s.old);
    memory::write8(m, a + 8, s.occurrence as u32);
    memory::write8(m, a + 9, s.marks);
    memory::write8(m, a + 10, s.overflow);
    memory::write8(m, a + 11, s.head);
    memory::write8(m, a + 12, s.count);
    memory::write16(m, a + 14, s.queue);
}
