// Which command a line is, from its name and its numbers.
ghost use Rattle.std.specs.Prelude.{◌≡◌};
ghost use Rattle.std.specs.List.{fold};
ghost use Rattle.script.specs.Reading.{alone, of_object, of_value, of_two, of_negative, of_ipdu, of_bytes};
ghost use Rattle.script.specs.Reader.{shifted, with_letter, no_name, name_from, is_named};

use super::{Ask, Command, Name};
use table::{IpduNumber, ObjectNumber};

pub(crate) const NO_NAME: Name = Name {
    letters: 0,
    head: 0,
    tail: 0,
};

impl Name {
    // Whether it is this name. Where that is a constant, LLVM computes its numbers.
    #[inline(always)]
    fn is(self, name: &[u8]) -> bool
        ensures { result ≡ is_named self name.now }
    {
        self == name_of(name)
    }
}

#[inline(always)]
fn name_of(name: &[u8]) -> Name
    ensures { result ≡ fold with_letter no_name name.now }
{
    name.iter().fold(NO_NAME, |n, b| with_letter(n, *b))
}

// The name with one letter more.
pub(crate) fn with_letter(n: Name, b: u8) -> Name
    ensures { result ≡ with_letter n b }
{
    if n.letters < 8 {
        return Name {
            letters: n.letters + 1,
            head: shifted(n.head, b),
            ..n
        };
    }
    if n.letters < 16 {
        return Name {
            letters: n.letters + 1,
            tail: shifted(n.tail, b),
            ..n
        };
    }
    Name { letters: 17, ..n }
}

// The low seven bytes of x moved up, with b below.
fn shifted(x: u64, b: u8) -> u64
    ensures { result ≡ shifted x b }
{
    x % 0x100000000000000 * 256 + b as u64
}

// A line that is a name alone.
pub(crate) fn alone(n: Name) -> Option<Command>
    ensures { result ≡ alone (is_named n) }
{
    if n.is(b"start") {
        return Some(Command::Start);
    }
    if n.is(b"stop") {
        return Some(Command::Stop);
    }
    if n.is(b"start_periodic") {
        return Some(Command::Periodic(true));
    }
    if n.is(b"stop_periodic") {
        return Some(Command::Periodic(false));
    }
    if n.is(b"tick") {
        return Some(Command::Tick);
    }
    None
}

// A name and an object's number.
pub(crate) fn of_object(n: Name, i: u32) -> Option<Command>
    ensures { result ≡ of_object (is_named n) i }
{
    if n.is(b"receive") {
        return Some(Command::Object(Ask::Receive, ObjectNumber(i)));
    }
    if n.is(b"status") {
        return Some(Command::Object(Ask::Status, ObjectNumber(i)));
    }
    if n.is(b"marks") {
        return Some(Command::Object(Ask::Marks, ObjectNumber(i)));
    }
    if n.is(b"clear_marks") {
        return Some(Command::Object(Ask::ClearMarks, ObjectNumber(i)));
    }
    None
}

// A name and two numbers.
pub(crate) fn of_two(n: Name, i: u32, v: u32) -> Option<Command>
    ensures { result ≡ of_two (is_named n) i v }
{
    of_value(n, i, v, of_ipdu(n, i, v))
}

// A name, a number, and one that is `below` less than 0 and means its 32 bits.
pub(crate) fn of_negative(n: Name, i: u32, below: u32) -> Option<Command>
    ensures { result ≡ of_negative (is_named n) i below }
{
    of_value(n, i, below.wrapping_neg(), None)
}

// A send or an initialise of this value, or else another reading.
fn of_value(n: Name, i: u32, v: u32, other: Option<Command>) -> Option<Command>
    ensures { result ≡ of_value (is_named n) i v other }
{
    if n.is(b"send") {
        return Some(Command::Send(ObjectNumber(i), v));
    }
    if n.is(b"initialise") {
        return Some(Command::Initialise(ObjectNumber(i), v));
    }
    other
}

// A name, an I-PDU's number and good or not.
fn of_ipdu(n: Name, k: u32, good: u32) -> Option<Command>
    ensures { result ≡ of_ipdu (is_named n) k good }
{
    if 1 < good {
        return None;
    }
    if n.is(b"indication") {
        return Some(Command::Indication(IpduNumber(k), good == 1));
    }
    if n.is(b"confirm") {
        return Some(Command::Confirm(IpduNumber(k), good == 1));
    }
    None
}

// A name, an I-PDU's number, good or not, and bytes; `whole` is whether the field of the bytes can be read.
pub(crate) fn of_bytes(n: Name, whole: bool, k: u32, good: u32) -> Option<Command>
    ensures { result ≡ of_bytes (is_named n) whole k good }
{
    if (1 < good) | !whole {
        return None;
    }
    if n.is(b"indication") {
        return Some(Command::Indication(IpduNumber(k), good == 1));
    }
    None
}
