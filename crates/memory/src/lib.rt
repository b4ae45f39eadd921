// Little-endian numbers in lent bytes, bytes cleared, decimals put as text, and the order of values that are signed or not. Every caller
// has checked that the bytes are there.
//
// A reader and a writer for each size: one function with a const parameter would answer u64, and each caller would narrow it and show
// that it fits.
#![tactic(auto)]

mod integers;
mod texts;

ghost use Rattle.std.specs.Prelude.{◌≡◌, ◌+◌, ◌*◌, ◌^◌, ◌<◌, ◌≤◌, length, replicate};
ghost use Rattle.memory.specs.Bytes.{bytes_of, number_at, replaced};

pub use integers::{less_than, put_integer, rank};
pub use texts::{BLANK, put_decimal, put_digit, put_line_feed, put_number};

// The byte at `at`.
pub fn read8(m: &[u8], at: usize) -> u32
    requires { at + 1 ≤ length m.now }
    ensures { (result ≡ number_at 1 at m.now) × (result < 256) }
{
    u32::from(m[at])
}

// The two bytes from `at` on, as a number.
pub fn read16(m: &[u8], at: usize) -> u32
    requires { at + 2 ≤ length m.now }
    ensures { (result ≡ number_at 2 at m.now) × (result < 2 ^ 16) }
{
    u32::from(u16::from_le_bytes([m[at], m[at + 1]]))
}

// The four bytes from `at` on, as a number.
pub fn read32(m: &[u8], at: usize) -> u32
    requires { at + 4 ≤ length m.now }
    ensures { result ≡ number_at 4 at m.now }
{
    u32::from_le_bytes([m[at], m[at + 1], m[at + 2], m[at + 3]])
}

// The eight bytes from `at` on, as a number.
pub fn read64(m: &[u8], at: usize) -> u64
    requires { at + 8 ≤ length m.now }
    ensures { result ≡ number_at 8 at m.now }
{
    u64::from_le_bytes([
        m[at],
        m[at + 1],
        m[at + 2],
        m[at + 3],
        m[at + 4],
        m[at + 5],
        m[at + 6],
        m[at + 7],
    ])
}

// Puts bytes from `at` on.
fn put(m: &mut [u8], at: usize, bytes: &[u8])
    requires { at + length bytes.now ≤ length m.old }
    ensures { m.new ≡ replaced at bytes.now m.old }
{
    m[at..at + bytes.len()].copy_from_slice(bytes);
}

// Puts a number's low byte at `at`.
pub fn write8(m: &mut [u8], at: usize, x: u32)
    requires { at + 1 ≤ length m.old }
    ensures { m.new ≡ replaced at (bytes_of 1 x) m.old }
{
    put(m, at, &x.to_le_bytes()[..1]);
}

// Puts a number's low two bytes from `at` on.
pub fn write16(m: &mut [u8], at: usize, x: u32)
    requires { at + 2 ≤ length m.old }
    ensures { m.new ≡ replaced at (bytes_of 2 x) m.old }
{
    put(m, at, &x.to_le_bytes()[..2]);
}

// Puts a number into the four bytes from `at` on.
pub fn write32(m: &mut [u8], at: usize, x: u32)
    requires { at + 4 ≤ length m.old }
    ensures { m.new ≡ replaced at (bytes_of 4 x) m.old }
{
    put(m, at, &x.to_le_bytes()[..4]);
}

// Puts a number into the eight bytes from `at` on.
pub fn write64(m: &mut [u8], at: usize, x: u64)
    requires { at + 8 ≤ length m.old }
    ensures { m.new ≡ replaced at (bytes_of 8 x) m.old }
{
    put(m, at, &x.to_le_bytes()[..8]);
}

// Sets each byte to 0.
pub fn clear(m: &mut [u8])
    ensures { m.new ≡ replicate (length m.old) 0 }
{
    m.fill(0);
}
