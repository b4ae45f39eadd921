// Packs and prints frames: worked examples, then every place in frames of 0 to 9 bytes and readings that overlap, as digests.
// tests/packing.py works the same output out by itself.
#![tactic(auto)]

mod cases;
mod digest;
mod pairs;
mod sweep;

use bits::Order;
use std::io;

const ORDERS: [Order; 2] = [Order::Little, Order::Big];

// What can't be written is lost, with all that comes behind it.
fn main(rt: HostRuntime) {
    let _ = print_all(&rt);
}

fn print_all(rt: &impl Print) -> io::Result<()> {
    cases::print_all(rt)?;
    for length in 0..10 {
        for order in ORDERS {
            sweep::print(rt, length, order)?;
        }
    }
    pairs::print(rt)
}
