// A line, byte by byte: the field that each byte joins, and the command when the line has ended.
ghost use Rattle.std.specs.Prelude.{◌≡◌, ◌<◌, ◌≤◌, length, Option, Some, None};
ghost use Rattle.std.proofs.lemmas.List.Edits.{sets};
ghost use Rattle.memory.specs.Search.{pick};
ghost use Rattle.script.specs.Reading.{with_digit, with_minus, numeral_with, hex_value, is_hex_digit};
ghost use Rattle.script.specs.declared.Reader.TheVariants.{First, Second, Bytes};
ghost use Rattle.script.specs.Reader.{shifted, with_letter, one_more, hex_with, whole_bytes, next_field, joined, next, fresh, command_of, no_name};
ghost use Rattle.script.specs.Reader.{frame_of_hex, frame_of, bytes_down};

use super::{Command, Frame, Hex, Name, Numeral, Reader, names};

const BLANK: u8 = b' ';

const NO_FRAME: Frame = Frame {
    value: 0,
    length: 0,
};

// How far a negative value of 32 bits can be below 0.
const MOST_BELOW: u64 = 0x80000000;

// A line of which nothing was read.
#[tactic(auto, unfolding(crate::specs::Reader::fresh))]
pub fn fresh() -> Reader
    ensures { result ≡ fresh }
{
    Reader::Naming(names::NO_NAME)
}

// The line with one byte more.
#[tactic(auto, unfolding(crate::specs::Reader::next))]
pub fn feed(line: Reader, b: u8) -> Reader
    ensures { result ≡ next line b }
{
    if b == BLANK {
        return next_field(line);
    }
    join(line, b)
}

fn next_field(line: Reader) -> Reader
    ensures { result ≡ next_field line }
{
    match line {
        Reader::Naming(n) => Reader::First(n, Numeral::Nothing),
        Reader::First(n, f) => Reader::Second(n, f, Numeral::Nothing),
        Reader::Second(n, f, s) => Reader::Bytes(n, f, s, Hex::Digits(0, 0)),
        Reader::Bytes(_, _, _, _) | Reader::TooMany => Reader::TooMany,
    }
}

fn join(line: Reader, b: u8) -> Reader
    ensures { result ≡ joined line b }
{
    match line {
        Reader::Naming(n) => Reader::Naming(names::with_letter(n, b)),
        Reader::First(n, f) => Reader::First(n, numeral_with(f, b)),
        Reader::Second(n, f, s) => Reader::Second(n, f, numeral_with(s, b)),
        Reader::Bytes(n, f, s, h) => Reader::Bytes(n, f, s, hex_with(h, b)),
        Reader::TooMany => Reader::TooMany,
    }
}

fn numeral_with(n: Numeral, b: u8) -> Numeral
    ensures { result ≡ numeral_with n b }
{
    if (b'0' <= b) & (b <= b'9') {
        return with_digit(n, (b - b'0') as u32);
    }
    if b == b'-' {
        return with_minus(n);
    }
    Numeral::Wrong
}

// A minus stands before all digits.
fn with_minus(n: Numeral) -> Numeral
    ensures { result ≡ with_minus n }
{
    match n {
        Numeral::Nothing => Numeral::Minus,
        _ => Numeral::Wrong,
    }
}

// The numeral with one digit more behind it.
fn with_digit(n: Numeral, d: u32) -> Numeral
    requires { d < 10 }
    ensures { result ≡ with_digit n d }
{
    match n {
        Numeral::Nothing => Numeral::Number(d),
        Numeral::Number(above) => {
            let longer = 10 * (above as u64) + d as u64;
            if (above != 0) & (longer < 0x100000000) {
                return Numeral::Number(longer as u32);
            }
            Numeral::Wrong
        }
        Numeral::Minus => {
            if d == 0 {
                return Numeral::Wrong;
            }
            Numeral::Negative(d)
        }
        Numeral::Negative(above) => {
            let longer = 10 * (above as u64) + d as u64;
            if longer <= MOST_BELOW {
                return Numeral::Negative(longer as u32);
            }
            Numeral::Wrong
        }
        Numeral::Wrong => Numeral::Wrong,
    }
}

fn hex_with(h: Hex, b: u8) -> Hex
    ensures { result ≡ hex_with h b }
{
    let Hex::Digits(x, n) = h else {
        return Hex::NotHex;
    };
    match hex_value(b) {
        Some(d) => Hex::Digits(x % 0x1000000000000000 * 16 + d, one_more(n)),
        None => Hex::NotHex,
    }
}

fn one_more(n: u32) -> u32
    ensures { result ≡ one_more n }
{
    if n < 18 {
        return n + 1;
    }
    17
}

// The value of an upper-case hex digit.
fn hex_value(b: u8) -> Option<u64>
    ensures { result ≡ pick (is_hex_digit b) (Some (hex_value b)) None }
{
    if (b'0' <= b) & (b <= b'9') {
        return Some((b - b'0') as u64);
    }
    if (b'A' <= b) & (b <= b'F') {
        return Some((b - b'A' + 10) as u64);
    }
    None
}

// The command of a line that has ended, if it can be read.
#[tactic(auto, unfolding(crate::specs::Reader::command_of))]
pub fn command_of(line: Reader) -> Option<Command>
    ensures { result ≡ command_of line }
{
    match line {
        Reader::Naming(n) => names::alone(n),
        Reader::First(n, f) => with_number(n, f),
        Reader::Second(n, f, s) => with_numbers(n, f, s),
        Reader::Bytes(n, f, s, h) => with_bytes(n, f, s, h),
        Reader::TooMany => None,
    }
}

#[tactic(auto, unfolding(crate::specs::Reader::command_of))]
fn with_number(n: Name, f: Numeral) -> Option<Command>
    ensures { result ≡ command_of (First n f) }
{
    match f {
        Numeral::Number(i) => names::of_object(n, i),
        _ => None,
    }
}

// Nested matches, measured: with a function that answers Option and `?` a line takes 1 to 4 % more instructions, with one match on both
// numerals 6 to 10 %.
#[tactic(auto, using(crate::proofs::LinesLaws::no_integer), unfolding(crate::specs::Reader::command_of))]
fn with_numbers(n: Name, f: Numeral, s: Numeral) -> Option<Command>
    ensures { result ≡ command_of (Second n f s) }
{
    match f {
        Numeral::Number(i) => match s {
            Numeral::Number(v) => names::of_two(n, i, v),
            Numeral::Negative(v) => names::of_negative(n, i, v),
            _ => None,
        },
        _ => None,
    }
}

#[tactic(auto, unfolding(crate::specs::Reader::command_of))]
fn with_bytes(n: Name, f: Numeral, s: Numeral, h: Hex) -> Option<Command>
    ensures { result ≡ command_of (Bytes n f s h) }
{
    match f {
        Numeral::Number(k) => match s {
            Numeral::Number(good) => names::of_bytes(n, whole_bytes(h), k, good),
            _ => None,
        },
        _ => None,
    }
}

// Whole bytes, at least one.
fn whole_bytes(h: Hex) -> bool
    ensures { result ≡ whole_bytes h }
{
    matches!(h, Hex::Digits(_, n) if n != 0 && n % 2 == 0)
}

// The bytes of an indication that has ended; none for any other line.
#[tactic(auto, using(crate::proofs::LinesLaws::no_frame), unfolding(crate::specs::Reader::frame_of))]
pub fn frame_of(line: Reader) -> Frame
    ensures { (result ≡ frame_of line) × (result.length ≤ 9) }
{
    match line {
        Reader::Bytes(_, _, _, h) => frame_of_hex(h),
        _ => NO_FRAME,
    }
}

fn frame_of_hex(h: Hex) -> Frame
    ensures { (result ≡ frame_of_hex h) × (result.length ≤ 9) }
{
    match h {
        Hex::Digits(x, n) => Frame {
            value: x,
            length: (n / 2).min(9) as usize,
        },
        Hex::NotHex => NO_FRAME,
    }
}

// Puts the low k bytes of x, the most significant first, at the start of `bytes`.
pub fn spell(bytes: &mut [u8], k: usize, x: u64)
    requires { k ≤ length bytes.old }
    ensures { bytes.new ≡ sets bytes.old 0 (bytes_down k x) }
{
    let n = k.min(8);
    bytes[..k - n].fill(0);
    bytes[k - n..k].copy_from_slice(&x.to_be_bytes()[8 - n..]);
}
