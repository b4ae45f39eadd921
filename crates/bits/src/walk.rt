// The walk of a byte order through the 64 bits of a slot.
ghost use Rattle.std.specs.Prelude.{◌≡◌, ◌<◌};
ghost use Rattle.bits.specs.Slots.{position};

use super::Order;

// How far along the walk of `order` through a slot the I-PDU bit `place` stands. The big walk takes the bytes from the last to
// the first: `^ 56` inverts the upper three bits of a place, the byte's number, and leaves the lower three, the bit's in its byte.
#[tactic(auto, unfolding(crate::specs::Slots::position))]
pub fn position(order: Order, place: u32) -> u32
    requires { place < 64 }
    ensures { result ≡ position order place }
{
    match order {
        Order::Little => place,
        Order::Big => place ^ 56,
    }
}
