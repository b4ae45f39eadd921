// Numbers in decimals, and the end of a line. What is put takes the text and a place, and answers the place behind. A struct of both would
// hold a `&mut`, could have no Model, and each clause would name both by a path.
ghost use Rattle.std.specs.Prelude.{◌≡◌, ◌+◌, ◌/◌, ◌%◌, ◌<◌, ◌≤◌, [], ◌∷◌, length};
ghost use Rattle.memory.specs.Texts.{line_feed, digit_of, decimal, number_field, Put};

pub const BLANK: u8 = b' ';

const LINE_FEED: u8 = b'\n';

// A blank and a number.
pub fn put_number(out: &mut [u8], at: usize, n: u64) -> usize
    requires { at + 1 + length (decimal n) ≤ length out.old }
    ensures { Put at (number_field n) out.old out.new result }
{
    out[at] = BLANK;
    put_decimal(out, at + 1, n)
}

// A number in decimals with no leading zeros, two digits at a time.
pub fn put_decimal(out: &mut [u8], at: usize, n: u64) -> usize
    requires { at + length (decimal n) ≤ length out.old }
    ensures { Put at (decimal n) out.old out.new result }
{
    if n < 10 {
        return put_digit(out, at, n as u32);
    }
    if n < 100 {
        return put_two(out, at, n as u32);
    }
    let last = put_decimal(out, at, n / 100);
    put_two(out, last, (n % 100) as u32)
}

// Two stores, and no `copy_from_slice` of an array of both: that is no shorter.
fn put_two(out: &mut [u8], at: usize, d: u32) -> usize
    requires d_bound { d < 100 }
    requires at_in_bounds { at + 2 ≤ length out.old }
    ensures { Put at (digit_of (d / 10) ∷ digit_of (d % 10) ∷ []) out.old out.new result }
{
    out[at] = b'0' + (d / 10) as u8;
    out[at + 1] = b'0' + (d % 10) as u8;
    at + 2
}

pub fn put_digit(out: &mut [u8], at: usize, d: u32) -> usize
    requires d_bound { d < 10 }
    requires at_in_bounds { at < length out.old }
    ensures { Put at (digit_of d ∷ []) out.old out.new result }
{
    out[at] = b'0' + d as u8;
    at + 1
}

pub fn put_line_feed(out: &mut [u8], at: usize) -> usize
    requires { at < length out.old }
    ensures { Put at (line_feed ∷ []) out.old out.new result }
{
    out[at] = LINE_FEED;
    at + 1
}
