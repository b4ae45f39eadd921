// Values of 32 bits that are read as signed or as they stand (W-207): their order, and their text.
ghost use Rattle.std.specs.Prelude.{◌≡◌, ◌+◌, ◌≤◌, length};
ghost use Rattle.memory.specs.Texts.{Put};
ghost use Rattle.memory.specs.Integers.{integer, less_than, rank, integer_field};

use super::texts;

// From here on a signed value is negative.
const FIRST_NEGATIVE: u32 = 0x80000000;

// Whether a is less than b.
pub fn less_than(signed: bool, a: u32, b: u32) -> bool
    ensures { result ≡ less_than signed a b }
{
    rank(signed, a) < rank(signed, b)
}

// How far a value stands above the least one: of values of one sign, the greater has the greater rank.
pub fn rank(signed: bool, v: u32) -> u32
    ensures { result ≡ rank signed v }
{
    v.wrapping_add(if signed { FIRST_NEGATIVE } else { 0 })
}

// A blank and the integer that a value means.
pub fn put_integer(out: &mut [u8], at: usize, signed: bool, v: u32) -> usize
    requires { at + length (integer_field (integer signed v)) ≤ length out.old }
    ensures { Put at (integer_field (integer signed v)) out.old out.new result }
{
    if signed & (FIRST_NEGATIVE <= v) {
        out[at] = texts::BLANK;
        out[at + 1] = b'-';
        return texts::put_decimal(out, at + 2, 0x100000000 - v as u64);
    }
    texts::put_number(out, at, v as u64)
}
