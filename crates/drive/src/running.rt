// A script over a table: the table is read whole, the script part by part.
ghost use Rattle.std.specs.Prelude.{◌≤◌, length};

use driver::{Part, Progress};
use layer::{AREA_SIZE, MEMORY_SIZE};
use std::io;
use std::io::Read;
use std::rt::Files;

// One byte more than the largest table: whatever is longer is a wrong header, as that much of it is.
const ROOM: usize = table::LARGEST + 1;

// The size of a part of the script, and of the buffer for what it prints.
const PART_SIZE: usize = 65536;

// Of the first file that can't be read standard error says so, and the run ends there.
pub(crate) fn run<R: Files + Print>(rt: &R, stderr: &impl Print, table: &[u8], script: &[u8]) {
    let mut bytes = [0u8; ROOM];
    let n = match files::read_whole(rt, table, &mut bytes) {
        Ok(n) => n,
        Err(error) => return files::fail(stderr, table, &error),
    };
    if let Err(error) = run_script(rt, &bytes[..n], script) {
        files::fail(stderr, script, &error);
    }
}

// Runs the whole script, and writes what its end prints. What was printed before a failed read stays.
fn run_script<'a, R: Files + Print>(rt: &'a R, table: &'a [u8], path: &[u8]) -> io::Result<()> {
    let mut script = files::open(rt, path)?;
    let mut runner = Runner {
        rt,
        table,
        memory: [0xa5; MEMORY_SIZE],
        area: [0xff; AREA_SIZE],
        out: [0; PART_SIZE],
    };
    driver::begin(table, &mut runner.memory);
    let progress = runner.read_all(&mut script)?;
    runner.finish(progress);
    Ok(())
}

// A script's run: what its calls work on, and the buffer for what they print. How far it is goes from part to part as a value: as a
// field it was read from memory at each line, and a line took 5 to 17 % more instructions.
#[derive(Drop)]
struct Runner<'a, R> {
    rt: &'a R,
    table: &'a [u8],
    memory: [u8; MEMORY_SIZE],
    area: [u8; AREA_SIZE],
    out: [u8; PART_SIZE],
}

impl<R: Print> Runner<'_, R> {
    // Reads the script part by part, and runs each. A proved loop has to end, and nothing says that a file does: no run uses up its turns.
    fn read_all(&mut self, script: &mut impl Read) -> io::Result<Progress> {
        let mut part = [0; PART_SIZE];
        let mut progress = driver::first();
        for _ in 0..u64::MAX {
            let n = script.read(&mut part)?;
            progress = self.run_part(&part[..n], progress);
            if n == 0 || progress.ended {
                break;
            }
        }
        Ok(progress)
    }

    // Runs a part of the script, and writes what it prints as often as `out` is full. Each turn reads a byte or more.
    fn run_part(&mut self, part: &[u8], before: Progress) -> Progress {
        let mut progress = before;
        let mut rest = part;
        for _ in 0..part.len() {
            if rest.is_empty() {
                break;
            }
            let done = self.run_some(rest, progress);
            rest = &rest[done.read..];
            progress = done.progress;
        }
        progress
    }

    // Runs as much of the part as `out` has room for, and writes what it prints.
    fn run_some(&mut self, part: &[u8], progress: Progress) -> Part
        ensures { result.read ≤ length part.now }
    {
        let done = driver::run_some(
            self.table,
            &mut self.memory,
            &mut self.area,
            part,
            &mut self.out,
            progress,
        );
        self.write(done.written);
        done
    }

    // Writes what the end of the script prints.
    fn finish(&mut self, progress: Progress) {
        let n = driver::finish(&mut self.out, progress);
        self.write(n);
    }

    // Writes the first `n` bytes of `out`. What can't be written is lost.
    fn write(&self, n: usize)
        requires { n ≤ PART_SIZE }
    {
        let _ = self.rt.write_all(&self.out[..n]);
    }
}
