// Worked examples, as the library answers them: messages packed and unpacked, places with and without room, and signed messages.
use bits::{BitSize, ByteLength, NoPlace, Order};
use std::io;

pub(crate) fn print_all(rt: &impl Print) -> io::Result<()> {
    packed(rt, 1, Order::Little, 13, 2748)?;
    packed(rt, 2, Order::Big, 18, 2748)?;
    packed(rt, 3, Order::Little, 13, 6844)?;
    room(rt, 4, Order::Big, 18, 22, 4)?;
    room(rt, 4, Order::Big, 18, 23, 4)?;
    room(rt, 5, Order::Little, 13, 27, 5)?;
    room(rt, 5, Order::Little, 13, 28, 5)?;
    signed(rt, 12, 0x800)?;
    signed(rt, 12, 0xfff)?;
    signed(rt, 12, 0x7ff)?;
    signed(rt, 1, 1)?;
    signed(rt, 32, 0x80000000)
}

// A message in all four bytes of a frame, unpacked as signed under either order.
fn signed(rt: &impl Print, size: u32, value: u32) -> io::Result<()> {
    print!(rt; "signed {size} bits {value:x}:")?;
    for (order, start) in [(Order::Little, 0), (Order::Big, 24)] {
        match unpacked_as_signed(order, start, BitSize(size), value) {
            Ok(back) => print!(rt; " {back:08x}")?,
            Err(_) => print!(rt; " refused")?,
        }
    }
    println!(rt; "")
}

fn unpacked_as_signed(order: Order, start: u32, size: BitSize, value: u32) -> Result<u32, NoPlace> {
    let mut frame = [0u8; 4];
    bits::pack(&mut frame, order, start, size, value)?;
    bits::unpack(&frame, order, true, start, size)
}

// Twelve bits in four zero bytes: the frame, and what unpacks from it.
fn packed(rt: &impl Print, case: u32, order: Order, start: u32, value: u32) -> io::Result<()> {
    let mut frame = [0u8; 4];
    print!(rt; "case {case}: ")?;
    match bits::pack(&mut frame, order, start, BitSize(12), value) {
        Ok(()) => print_frame(rt, &frame)?,
        Err(_) => print!(rt; "refused")?,
    }
    match bits::unpack(&frame, order, false, start, BitSize(12)) {
        Ok(back) => println!(rt; " unpacks to {back}"),
        Err(_) => println!(rt; "refused"),
    }
}

fn room(
    rt: &impl Print,
    case: u32,
    order: Order,
    start: u32,
    size: u32,
    length: u32,
) -> io::Result<()> {
    if bits::has_room(order, start, BitSize(size), ByteLength(length)) {
        println!(rt; "case {case}: {size} bits fit")
    } else {
        println!(rt; "case {case}: {size} bits do not fit")
    }
}

fn print_frame(rt: &impl Print, frame: &[u8; 4]) -> io::Result<()> {
    let [a, b, c, d] = *frame;
    print!(rt; "{a:02x} {b:02x} {c:02x} {d:02x}")
}
