// One line: its bytes up to the line feed or the end of the part, and what its end does.
ghost use Rattle.std.specs.Prelude.{false, ◌≡◌, ◌+◌, ◌≤◌, length};
ghost use Rattle.script.specs.Reader.{bytes_down, frame_bytes};
ghost use Rattle.report.specs.Printing.{longest_line};
ghost use Rattle.script_run.specs.Parts.{is_empty};
ghost use Rattle.commands.specs.Given.{Holds, EffectGave};
ghost use Rattle.driver.specs.Turns.{LineEnd, Scanned, LineRun};

use super::{Reached, Run};
use commands::Made;
use script::{Command, Frame, Name, Progress, Reader};
use table::Counts;

const LINE_FEED: u8 = b'\n';

// Reads the bytes of a line from place `from` on. Its end is looked for first: with both in one loop a line with a long name took up to 1.4 times the time.
pub(crate) fn scan(part: &[u8], from: usize, reader: Reader) -> Reached
    requires { from ≤ length part.now }
    ensures { Scanned part.now from reader result }
{
    let end = line_end(part, from);
    let mut line = reader;
    for at in from..end {
        line = script::feed(line, part[at]);
    }
    Reached {
        reader: line,
        at: end,
    }
}

// The place of the first line feed from place `from` on, or the end of the part.
fn line_end(part: &[u8], from: usize) -> usize
    requires { from ≤ length part.now }
    ensures { LineEnd part.now from result }
{
    for at in from..part.len() {
        if part[at] == LINE_FEED {
            return at;
        }
    }
    part.len()
}

// The line feed of a line: its call is made and printed, or it can't be read.
pub(crate) fn end_line(t: &[u8], m: &mut [u8], area: &mut [u8], out: &mut [u8], run: Run) -> Run
    requires holds { Holds run.checked t.now m.old }
    requires longest_line_in_bounds { run.written + longest_line ≤ length out.old }
    ensures { LineRun t.now run.progress m.old area.old out.old m.new area.new out.new run.written result }
{
    let p = run.progress;
    match script::command_of(p.reader) {
        Some(command) => {
            let frame = script::frame_of(p.reader);
            let made = make(t, m, area, out, run.written, run.checked, command, frame);
            Run {
                progress: Progress {
                    reader: script::fresh(),
                    line: p.line.saturating_add(1),
                    ended: false,
                },
                checked: made.checked,
                written: made.line_end,
            }
        }
        None => Run {
            progress: Progress {
                reader: script::fresh(),
                line: p.line,
                ended: true,
            },
            checked: run.checked,
            written: report::put_refusal(out, run.written, p.line),
        },
    }
}

// Makes the call of a command, with the bytes of an indication spelt out.
fn make(
    t: &[u8],
    m: &mut [u8],
    area: &mut [u8],
    out: &mut [u8],
    at: usize,
    checked: Option<Counts>,
    command: Command,
    frame: Frame,
) -> Made
    requires holds { Holds checked t.now m.old }
    requires longest_line_in_bounds { at + longest_line ≤ length out.old }
    requires length_bound { frame.length ≤ 9 }
    ensures effect_gave { EffectGave t.now command (frame_bytes frame) m.old area.old at out.old m.new area.new out.new result.line_end }
    ensures end_bound { result.line_end ≤ at + longest_line }
    ensures still_holds { Holds result.checked t.now m.new }
{
    let bytes = spelt(frame.value);
    commands::perform(
        t,
        m,
        area,
        &bytes[9 - frame.length..],
        out,
        at,
        checked,
        command,
    )
}

// Nine bytes that end in those of a frame.
fn spelt(value: u64) -> [u8; 9]
    ensures { result ≡ bytes_down 9 value }
{
    let mut bytes = [0; 9];
    script::spell(&mut bytes, 9, value);
    bytes
}

// Nothing was read of this line.
pub(crate) fn is_empty(reader: Reader) -> bool
    ensures { result ≡ is_empty reader }
{
    matches!(reader, Reader::Naming(Name { letters: 0, .. }))
}
