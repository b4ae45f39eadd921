// Reads a table on standard input and prints one line: `ok I O` with its counts, or `bad PLACE`.
#![tactic(auto)]

ghost use Rattle.std.specs.Prelude.{◌≤◌, length};

use std::io::Read;

// One byte more than the largest table: whatever is longer is a wrong header, as that much of it is.
const ROOM: usize = table::LARGEST + 1;

// A line that can't be written is lost.
fn main(rt: HostRuntime) {
    let mut buffer = [0u8; ROOM];
    let n = read_full(&mut rt.stdin(), &mut buffer);
    let verdict = table::check(&buffer[..n]);
    let _ = match verdict {
        Ok(c) => println!(rt; "ok {} {}", c.ipdus, c.objects),
        Err(_) => println!(rt; "bad {}", table::place_of(verdict)),
    };
}

// Reads until `bytes` is full, the input ends or a read fails; a while, since only a read tells how much it gave. `files::fill` does not serve
// here: what was read before a failed read counts, and an error there has no count with it.
fn read_full(input: &mut impl Read, bytes: &mut [u8]) -> usize
    ensures { result ≤ length bytes.new }
{
    let mut done = 0;
    while done < bytes.len() {
        let got = input.read(&mut bytes[done..]).unwrap_or(0);
        if got == 0 {
            break;
        }
        done += got;
    }
    done
}
