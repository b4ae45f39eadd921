// What is printed behind the status, and values.
ghost use Rattle.std.specs.Prelude.{[], ◌∷◌, ◌++◌, ◌≡◌, ◌+◌, ◌≤◌, length};
ghost use Rattle.memory.specs.Texts.{line_feed, Put};
ghost use Rattle.memory.specs.Integers.{integer, integer_field};
ghost use Rattle.table.specs.Check.{Right};
ghost use Rattle.report.specs.Printing.{shown, shown_ask, shown_value, val_name};

use super::Shown;
use calls::Answer;
use script::{Ask, Command};
use table::Counts;

// What is printed behind the status.
pub(crate) fn shown(t: &[u8], c: Counts, command: Command, answer: Answer) -> Shown
    requires { Right t.now c }
    ensures { result ≡ shown t.now command answer }
{
    match command {
        Command::Send(_, _) | Command::Tick => Shown::Requests(calls::value_of(answer)),
        Command::Object(ask, i) => shown_of_object(ask, config::is_signed(t, c, i), answer),
        _ => Shown::StatusAlone,
    }
}

// `signed` is whether the object is.
fn shown_of_object(ask: Ask, signed: bool, answer: Answer) -> Shown
    ensures { result ≡ shown_ask ask signed answer }
{
    let number = calls::number_of(answer);
    match ask {
        Ask::Receive => shown_value((number == 0) | (number == 3), signed, answer),
        Ask::Status => Shown::StatusAlone,
        Ask::Marks => shown_value(number == 0, false, answer),
        Ask::ClearMarks => Shown::StatusAlone,
    }
}

fn shown_value(gives: bool, signed: bool, answer: Answer) -> Shown
    ensures { result ≡ shown_value gives signed answer }
{
    if gives {
        return Shown::Value(signed, calls::value_of(answer));
    }
    Shown::StatusAlone
}

// ` val N` and the line feed.
pub(crate) fn put_value(out: &mut [u8], at: usize, signed: bool, v: u32) -> usize
    requires { at + 26 ≤ length out.old }
    ensures { Put at ((val_name ++ integer_field (integer signed v)) ++ line_feed ∷ []) out.old out.new result }
{
    let behind = super::put_text(out, at, b" val");
    let end = memory::put_integer(out, behind, signed, v);
    memory::put_line_feed(out, end)
}
