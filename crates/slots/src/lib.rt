// Packing of a slot under C names, for bench/packing.sh alone. These functions check nothing: the benchmark meets their `requires`.
#![tactic(auto)]

ghost use Rattle.std.specs.Prelude.{◌≡◌, ◌≤◌, ◌<◌, length, false};
ghost use Rattle.memory.specs.Bytes.{part, replaced};
ghost use Rattle.bits.specs.Bits.{packed, unpacked, extended};
ghost use Rattle.bits.specs.Slots.{position, InSlot};
ghost use Rattle.slots.specs.Orders.{order_of};

use bits::{BitSize, Order};

// 0 is little, anything else big: a number, since C passes one.
#[tactic(auto, unfolding(crate::specs::Orders::order_of))]
fn order_of(order: u32) -> Order
    ensures { result ≡ order_of order }
{
    match order {
        0 => Order::Little,
        _ => Order::Big,
    }
}

#[unsafe(no_mangle)]
pub extern "C" fn birnenschloss_position(order: u32, place: u32) -> u32
    requires { place < 64 }
    ensures { result ≡ position (order_of order) place }
{
    bits::position(order_of(order), place)
}

#[unsafe(no_mangle)]
pub extern "C" fn birnenschloss_pack_slot(
    slot: &mut [u8],
    order: u32,
    at: u32,
    size: u32,
    value: u32,
)
    requires { (8 ≤ length slot.old) × InSlot at size }
    ensures { slot.new ≡ replaced 0 (packed (order_of order) (position (order_of order) at) size value (part 0 8 slot.old)) slot.old }
{
    bits::pack_slot(slot, 0, order_of(order), at, BitSize(size), value)
}

#[unsafe(no_mangle)]
pub extern "C" fn birnenschloss_unpack_slot(slot: &[u8], order: u32, at: u32, size: u32) -> u32
    requires { (8 ≤ length slot.now) × InSlot at size }
    ensures { result ≡ extended false size (unpacked (order_of order) (position (order_of order) at) size (part 0 8 slot.now)) }
{
    bits::unpack_slot(slot, 0, order_of(order), false, at, BitSize(size))
}
