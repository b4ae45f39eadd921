// A slot's 64-bit word, and fields of bits in it.
ghost use Rattle.std.specs.Prelude.{◌≡◌, ◌+◌, ◌-◌, ◌^◌, ◌<◌, ◌≤◌};
ghost use Rattle.memory.specs.Search.{pick};
ghost use Rattle.bits.specs.Bits.{extended};
ghost use Rattle.bits.specs.Slots.{turned, with_bit_field, bit_field};

use super::Order;

// The word whose bits stand in the order's walk, from one whose bits stand by their I-PDU places; and back.
#[tactic(auto, using(crate::proofs::Slots::bytes_swapped), unfolding(crate::specs::Slots::turned))]
pub(crate) fn turned(order: Order, word: u64) -> u64
    ensures { result ≡ turned order word }
{
    match order {
        Order::Little => word,
        Order::Big => word.swap_bytes(),
    }
}

// 2 to the power n. A shift says it in one step; callers in other crates have its contract in place of a law about shifts.
pub fn power_of_two(n: u32) -> u64
    requires { n < 64 }
    ensures { result ≡ 2 ^ n }
{
    1u64 << n
}

// `bits` bits of the word, from bit `at` on.
#[tactic(auto, unfolding(crate::specs::Slots::bit_field))]
pub(crate) fn field(word: u64, at: u32, bits: u32) -> u32
    requires { (at < 64) × (bits ≤ 32) }
    ensures { result ≡ bit_field word at bits }
{
    (word / power_of_two(at) % power_of_two(bits)) as u32
}

// A field of `bits` bits as a value of 32: a signed one has its top bit copied upwards. The top bit is turned over by a sum
// that stays within the field and taken off again; where it was set, a borrow runs up from it.
pub(crate) fn extended(signed: bool, bits: u32, field: u32) -> u32
    requires { (1 ≤ bits) × (bits ≤ 32) × (field < 2 ^ bits) }
    ensures { result ≡ extended signed bits field }
{
    let top = top_bit(signed, bits);
    let turned = (field as u64 + top) % power_of_two(bits);
    (turned as u32).wrapping_sub(top as u32)
}

// The top bit of a signed field, 0 of another.
fn top_bit(signed: bool, bits: u32) -> u64
    requires { (1 ≤ bits) × (bits ≤ 32) }
    ensures { (result ≡ pick signed (2 ^ (bits - 1)) 0) × (result < 2 ^ 32) }
{
    if signed { power_of_two(bits - 1) } else { 0 }
}

// The word with the low `bits` bits of `x` from bit `at` on: the bits of the field that differ are inverted.
#[tactic(auto, using(crate::proofs::Slots::field_lt, crate::proofs::Xor::field_difference))]
pub(crate) fn with_field(word: u64, at: u32, bits: u32, x: u32) -> u64
    requires { (at + bits ≤ 64) × (at < 64) × (bits ≤ 32) }
    ensures { result ≡ with_bit_field word at bits x }
{
    let differing = ((field(word, at, 32) ^ x) as u64) % power_of_two(bits);
    word ^ differing * power_of_two(at)
}
