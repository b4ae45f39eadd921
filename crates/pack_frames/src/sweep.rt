// Every start bit 0..80 and every size 0..33 in a frame of one length and order: a line with how many places were packed,
// and a digest of each answer, frame and value unpacked, as it stands and as signed.
ghost use Rattle.std.specs.Prelude.{◌≤◌};

use super::digest::Digest;
use bits::{BitSize, Order};
use std::io;

#[derive(Drop)]
struct Tally {
    packed: u64,
    digest: Digest,
}

impl Tally {
    // A frame whose bytes are A5 before; the value depends on the place.
    fn add(&mut self, length: usize, order: Order, start: u32, size: u32)
        requires { length ≤ 9 }
    {
        let mut frame = [0xa5u8; 9];
        let value = start
            .wrapping_mul(2654435761)
            .wrapping_add(size.wrapping_mul(40503))
            .wrapping_add(1);
        let part = &mut frame[..length];
        if bits::pack(part, order, start, BitSize(size), value).is_ok() {
            self.packed = self.packed.wrapping_add(1);
        }
        let back = bits::unpack(part, order, false, start, BitSize(size));
        let signed = bits::unpack(part, order, true, start, BitSize(size));
        self.digest.mix_frame(&frame);
        self.digest.mix_unpacked(back);
        self.digest.mix_unpacked(signed);
    }
}

pub(crate) fn print(rt: &impl Print, length: usize, order: Order) -> io::Result<()>
    requires { length ≤ 9 }
{
    let mut tally = Tally {
        packed: 0,
        digest: Digest::new(),
    };
    for start in 0..81 {
        for size in 0..34 {
            tally.add(length, order, start, size);
        }
    }
    let name = match order {
        Order::Little => "little",
        Order::Big => "big",
    };
    println!(rt;
        "length {length} {name}: {} places, {}",
        tally.packed, tally.digest
    )
}
