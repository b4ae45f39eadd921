// Numbers of objects and I-PDUs: whether there is one, of the kind that a call asks for. Kind and direction are the numbers of a record, as the
// contracts have them.
ghost use Rattle.std.specs.Prelude.{◌≡◌};
ghost use Rattle.table.specs.Check.{Shape};
ghost use Rattle.calls.specs.Calls.{is_object, is_ipdu};

use table::{Counts, IpduNumber, ObjectNumber};

// Whether there is an object of this number and kind. A kind, as a direction below, is the number that a record has: any is answered.
pub fn is_object(t: &[u8], c: Counts, kind: u32, number: ObjectNumber) -> bool
    requires { Shape t.now c }
    ensures { result ≡ is_object t.now c kind number.0 }
{
    (number.0 < c.objects) && table::object_record(t, c.ipdus, number).kind == kind
}

// Whether there is an I-PDU of this number and direction.
pub fn is_ipdu(t: &[u8], c: Counts, direction: u32, number: IpduNumber) -> bool
    requires { Shape t.now c }
    ensures { result ≡ is_ipdu t.now c direction number.0 }
{
    (number.0 < c.ipdus) && table::ipdu_record(t, number).direction == direction
}
