// Runs the lines of a script (W-201) over a table and lent memory, part by part, and puts what is printed into a lent buffer. Table and
// memory are checked once in a part and not at each call; a start checks the table again.
#![tactic(auto)]

mod lines;

ghost use Rattle.std.specs.Prelude.{not, ◌&&◌, [], ◌≡◌, ◌+◌, ◌≤◌, leb, length};
ghost use Rattle.memory.specs.Search.{pick};
ghost use Rattle.memory.specs.Texts.{Put};
ghost use Rattle.report.specs.Printing.{longest_line};
ghost use Rattle.script_run.specs.Script.{begun};
ghost use Rattle.script_run.specs.Parts.{first_progress, end_text};
ghost use Rattle.driver.specs.Turns.{Ran};
ghost use Rattle.driver.specs.Turns.{run_with_reader};

pub use report::LONGEST_LINE;
pub use script::Progress;
use script::Reader;
use table::Counts;

// What a part came to: how many of its bytes were read, and how many bytes were put into the buffer.
#[derive(Clone, Copy)]
pub struct Part {
    pub progress: Progress,
    pub read: usize,
    pub written: usize,
}

// A part as it is run: how much of `out` is written, and what is known of table and memory.
#[derive(Clone, Copy)]
pub struct Run {
    pub progress: Progress,
    pub checked: Option<Counts>,
    pub written: usize,
}

// Where a line goes on: at a line feed, or at the end of the part.
#[derive(Clone, Copy)]
pub struct Reached {
    pub reader: Reader,
    pub at: usize,
}

// Makes the memory that of a stopped layer, from any bytes. Over a wrong table, or too little memory, it changes nothing.
pub fn begin(t: &[u8], m: &mut [u8])
    ensures { m.new ≡ begun t.now m.old }
{
    let _ = layer::start(t, m);
    let _ = layer::stop(t, m);
}

// The beginning of a script.
pub fn first() -> Progress
    ensures { result ≡ first_progress }
{
    Progress {
        reader: script::fresh(),
        line: 1,
        ended: false,
    }
}

// Runs a part of a script: as many of its bytes as there is room in `out` for what they print, which is put at the start of `out`. All
// are run where `out` keeps room for `LONGEST_LINE` bytes behind what was written. Behind a line that can't be read, bytes do nothing.
pub fn run_some(
    t: &[u8],
    m: &mut [u8],
    area: &mut [u8],
    part: &[u8],
    out: &mut [u8],
    progress: Progress,
) -> Part
    ensures { Ran t.now part.now progress m.old area.old out.old m.new area.new out.new result }
{
    let n = part.len();
    let room = out.len();
    let mut at = 0;
    let mut run = Run {
        progress,
        checked: commands::examine(t, m),
        written: 0,
    };
    // No `for` or `split`: a turn goes on behind the line feed that `scan` found, lines are not known before it, and the place where the
    // room ends is answered.
    while (at < n) & goes_on(run, room) {
        let reached = lines::scan(part, at, run.progress.reader);
        at = reached.at;
        run = with_reader(run, reached.reader);
        if at < n {
            run = lines::end_line(t, m, area, out, run);
            at += 1;
        }
    }
    Part {
        progress: run.progress,
        read: read_of(run, at, n),
        written: run.written,
    }
}

// A line can still be read, and there is room for what it prints.
fn goes_on(run: Run, room: usize) -> bool
    ensures { result ≡ (not run.progress.ended && leb (run.written + longest_line) room) }
{
    !run.progress.ended && room >= LONGEST_LINE && run.written <= room - LONGEST_LINE
}

// All of the part counts as read where a line could not be read.
fn read_of(run: Run, at: usize, n: usize) -> usize
    ensures { result ≡ pick run.progress.ended n at }
{
    if run.progress.ended { n } else { at }
}

fn with_reader(run: Run, reader: Reader) -> Run
    ensures { result ≡ run_with_reader run reader }
{
    Run {
        progress: Progress {
            reader,
            ..run.progress
        },
        ..run
    }
}

// The end of the script: a last line that was not ended is refused. `out` needs `LONGEST_LINE` bytes; with fewer, nothing is put.
pub fn finish(out: &mut [u8], progress: Progress) -> usize
    ensures put { Put 0 (pick (leb longest_line (length out.old)) (end_text progress) []) out.old out.new result }
    ensures upper_bound { result ≤ length out.old }
{
    if out.len() < LONGEST_LINE {
        return 0;
    }
    if progress.ended || lines::is_empty(progress.reader) {
        return 0;
    }
    report::put_refusal(out, 0, progress.line)
}
