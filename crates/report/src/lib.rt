// The lines that are printed for the commands of a script (W-201), put into a lent buffer. A line takes at most `LONGEST_LINE` bytes.
#![tactic(auto)]

mod requests;
mod values;

ghost use Rattle.std.specs.Prelude.{true, [], ◌∷◌, ◌≡◌, ◌+◌, ◌≤◌, length};
ghost use Rattle.memory.specs.Texts.{line_feed, digit_of, Put};
ghost use Rattle.table.specs.Check.{Right};
ghost use Rattle.state.specs.Layout.{area_size};
ghost use Rattle.calls.specs.Answers.{number_of};
ghost use Rattle.report.specs.Printing.{lends, answer_line, refusal_line, longest_line};

use calls::Answer;
use script::Command;
use table::Counts;

// A status, 32 requests of 24 bytes and a line feed.
pub const LONGEST_LINE: usize = 770;

// What is printed behind the status of a call: a value that is signed or not, or the I-PDUs of a word.
#[derive(Clone, Copy)]
pub enum Shown {
    StatusAlone,
    Value(bool, u32),
    Requests(u32),
}

// Puts the line of a call that was admitted, and answers the place behind it.
pub fn put_answer(
    t: &[u8],
    c: Counts,
    area: &[u8],
    out: &mut [u8],
    at: usize,
    command: Command,
    answer: Answer,
) -> usize
    requires right { Right t.now c }
    requires area_size_in_bounds { lends command ≡ true → area_size ≤ length area.now }
    requires longest_line_in_bounds { at + longest_line ≤ length out.old }
    ensures { Put at (answer_line t.now command answer area.now) out.old out.new result }
{
    let number = calls::number_of(answer);
    let behind = memory::put_digit(out, at, number);
    let shown = values::shown(t, c, command, answer);
    match shown {
        Shown::StatusAlone => memory::put_line_feed(out, behind),
        Shown::Value(signed, v) => values::put_value(out, behind, signed, v),
        Shown::Requests(word) => requests::put_requests(t, c, area, out, behind, word),
    }
}

// Puts the line of a call that shows its status alone.
pub fn put_status(out: &mut [u8], at: usize, answer: Answer) -> usize
    requires { at + 2 ≤ length out.old }
    ensures { Put at (digit_of (number_of answer) ∷ line_feed ∷ []) out.old out.new result }
{
    let number = calls::number_of(answer);
    let behind = memory::put_digit(out, at, number);
    memory::put_line_feed(out, behind)
}

// Puts the line for line n of the script, which can't be read.
pub fn put_refusal(out: &mut [u8], at: usize, n: u64) -> usize
    requires { at + longest_line ≤ length out.old }
    ensures { Put at (refusal_line n) out.old out.new result }
{
    let behind = memory::put_digit(out, at, 9);
    let end = memory::put_number(out, behind, n);
    memory::put_line_feed(out, end)
}

// Puts a text that stands in this crate.
fn put_text(out: &mut [u8], at: usize, text: &[u8]) -> usize
    requires { at + length text.now ≤ length out.old }
    ensures { Put at text.now out.old out.new result }
{
    let end = at + text.len();
    out[at..end].copy_from_slice(text);
    end
}
