// Packing of message values into I-PDUs and back, under either byte order, signed or not (document 01, "Bits"; W-207).
//
// A frame is a slice of 1 to 8 bytes; a slot is 8 bytes of lent memory, in which the interaction layer keeps an I-PDU.
// `pack`, `unpack` and `has_room` take anything and refuse what the rules leave out. `pack_slot` and `unpack_slot` are for
// callers that have checked the place and have its `position`: a word operation each, with no loop over bits and no branch.
#![tactic(auto)]

mod walk;
mod word;

ghost use Rattle.std.specs.Prelude.{◌≡◌, ℕ, ◌+◌, ◌<◌, ◌≤◌, length};
ghost use Rattle.memory.specs.Bytes.{part, replaced};
ghost use Rattle.bits.specs.Bits.{room, packed, unpacked, extended};
ghost use Rattle.bits.specs.Frames.{is_place, packing, frame_after, unpacking};
ghost use Rattle.bits.specs.Slots.{InSlot, position};

use std::error::Error;
use std::fmt;
pub use walk::position;
pub use word::power_of_two;

// The byte order of a message in its I-PDU.
#[derive(Clone, Copy, PartialEq, Eq)]
pub enum Order {
    Little,
    Big,
}

// A size in bits: the length of a message.
#[derive(Clone, Copy)]
pub struct BitSize(pub u32);

// A length in bytes: that of an I-PDU.
#[derive(Clone, Copy)]
pub struct ByteLength(pub u32);

// What the rules leave out: a frame of 0 or more than 8 bytes, a size of 0 or above 32, or a place with no room in the frame.
#[derive(Clone, Copy, Debug, PartialEq, Eq)]
pub struct NoPlace;

impl fmt::Display for NoPlace {
    fn fmt<W: fmt::Write>(&self, f: &mut fmt::Formatter<W>) -> fmt::Result {
        write!(f, "no place for the message")
    }
}

impl Error for NoPlace {}

// Whether a message of `size` bits that starts at bit `start` lies inside an I-PDU of `length` bytes.
#[tactic(auto, unfolding(crate::specs::Bits::room))]
pub fn has_room(order: Order, start: u32, size: BitSize, length: ByteLength) -> bool
    ensures { result ≡ room order start size.0 length.0 }
{
    let n = start as u64;
    let bits = size.0 as u64;
    let end = 8 * (length.0 as u64);
    match order {
        Order::Little => n + bits <= end,
        Order::Big => (n < end) & (bits <= 8 * (n / 8 + 1) - n % 8),
    }
}

// Whether a frame of `length` bytes has a message of `size` bits at `start`.
#[tactic(auto, unfolding(crate::specs::Frames::is_place))]
fn is_place(order: Order, start: u32, size: BitSize, length: usize) -> bool
    ensures { result ≡ is_place order start size.0 length }
{
    // Comparisons, as the definition has them: with `(1..=8).contains(&length)` and its like the goals stayed open.
    let fits = (1 <= length) & (length <= 8) & (1 <= size.0) & (size.0 <= 32);
    fits && has_room(order, start, size, ByteLength(length as u32))
}

// Puts the low `size` bits of `value` at their places in `frame`. What the rules leave out is refused and changes no byte.
#[tactic(auto, using(crate::proofs::Copies::frame_copies))]
pub fn pack(
    frame: &mut [u8],
    order: Order,
    start: u32,
    size: BitSize,
    value: u32,
) -> Result<(), NoPlace>
    ensures value { result ≡ packing order start size.0 (length frame.old) }
    ensures frame_after { frame.new ≡ frame_after order start size.0 value frame.old }
{
    if !is_place(order, start, size, frame.len()) {
        return Err(NoPlace);
    }
    let at = position(order, start);
    let mut slot = [0u8; 8];
    let n = frame.len();
    slot[..n].copy_from_slice(frame);
    pack_slot(&mut slot, 0, order, at, size, value);
    frame.copy_from_slice(&slot[..n]);
    Ok(())
}

// The value whose bits stand at the places of a message in `frame`, its top bit copied upwards where it is signed; or a
// refusal as for `pack`.
#[tactic(auto, using(crate::proofs::Copies::frame_copies))]
pub fn unpack(
    frame: &[u8],
    order: Order,
    signed: bool,
    start: u32,
    size: BitSize,
) -> Result<u32, NoPlace>
    ensures { result ≡ unpacking order signed start size.0 frame.now }
{
    if !is_place(order, start, size, frame.len()) {
        return Err(NoPlace);
    }
    let at = position(order, start);
    let mut slot = [0u8; 8];
    slot[..frame.len()].copy_from_slice(frame);
    Ok(unpack_slot(&slot, 0, order, signed, at, size))
}

// `pack` in the slot from byte `base` of `m` on, for a message that starts `at` bits along its order's walk. The bits
// that differ are found along the walk, turned back and inverted in the slot.
#[tactic(auto, using(crate::proofs::Words::field_packed))]
pub fn pack_slot(m: &mut [u8], base: usize, order: Order, at: u32, size: BitSize, value: u32)
    requires { (base + 8 ≤ length m.old) × InSlot at size.0 }
    ensures { m.new ≡ replaced base (packed order (position order at) size.0 value (part base 8 m.old)) m.old }
{
    let bits = size.0;
    let slot = memory::read64(m, base);
    let old = word::turned(order, slot);
    let new = word::with_field(old, at, bits, value);
    memory::write64(m, base, slot ^ word::turned(order, old ^ new));
}

// `unpack` of that slot.
#[tactic(auto, using(crate::proofs::Words::field_unpacked, crate::proofs::Extension::field_lt))]
pub fn unpack_slot(m: &[u8], base: usize, order: Order, signed: bool, at: u32, size: BitSize) -> u32
    requires { (base + 8 ≤ length m.now) × InSlot at size.0 }
    ensures { result ≡ extended signed size.0 (unpacked order (position order at) size.0 (part base 8 m.now)) }
{
    let bits = size.0;
    let field = word::field(word::turned(order, memory::read64(m, base)), at, bits);
    word::extended(signed, bits, field)
}
