// Two readings that begin in one byte of a frame of 8 bytes, packed one after the other: every start bit of both, every two
// orders, eight pairs of sizes. A line with a digest of each answer, frame and value unpacked, the last one as signed.
use super::ORDERS;
use super::digest::Digest;
use bits::{BitSize, Order};
use std::io;

pub(crate) fn print(rt: &impl Print) -> io::Result<()> {
    let mut digest = Digest::new();
    for n in 0..16384 {
        mix_pair(&mut digest, n);
    }
    println!(rt; "two readings: {digest}")
}

// The start bits, orders and sizes of pair n are digits of n; the second value goes over the first.
fn mix_pair(digest: &mut Digest, n: u32) {
    let mut frame = [0u8; 8];
    let first = ORDERS[(n % 2) as usize];
    let second = ORDERS[(n / 2 % 2) as usize];
    let start = n / 4 % 64;
    let other = start / 8 * 8 + n / 256 % 8;
    let size = BitSize(1 + n / 2048 % 8 * 4);
    let beside = BitSize(1 + (n / 2048 % 8 * 11 + start) % 32);
    let value = n.wrapping_mul(2654435761).wrapping_add(1);
    digest.mix_packed(bits::pack(&mut frame, first, start, size, value));
    digest.mix_packed(bits::pack(&mut frame, second, other, beside, !value));
    for half in [0, 32] {
        digest.mix_unpacked(bits::unpack(&frame, Order::Little, false, half, BitSize(32)));
    }
    digest.mix_unpacked(bits::unpack(&frame, first, false, start, size));
    digest.mix_unpacked(bits::unpack(&frame, second, true, other, beside));
}
