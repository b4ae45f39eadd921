// A command over table, memory and area: admitted or refused as the layer's calls are, but with what is known of table and memory taken
// over from the command before.
ghost use Rattle.std.specs.Prelude.{true, false, not, ◌||◌, [], ◌≡◌, ◌+◌, ◌≤◌, leb, length};
ghost use Rattle.state.specs.Layout.{area_size};
ghost use Rattle.state.specs.Ranges.{Ready};
ghost use Rattle.calls.specs.Answers.{outcome};
ghost use Rattle.layer.specs.Admission.{Admits};
ghost use Rattle.layer.specs.Step.{describe};
ghost use Rattle.script.specs.declared.Command.TheVariants.{Object};
ghost use Rattle.report.specs.Printing.{lends, longest_line};
ghost use Rattle.script_run.specs.Script.{call_of, own};
ghost use Rattle.commands.specs.Given.{Checked, Holds, is_start, EffectGave, OwnGave};

use super::Made;
use calls::{Answer, Refusal};
use script::{Ask, Command};
use state::{AREA_SIZE, MEMORY_SIZE, RUNNING};
use table::{Counts, ObjectNumber};

// Makes the call of a command, and puts its line into `out`.
pub fn perform(
    t: &[u8],
    m: &mut [u8],
    area: &mut [u8],
    bytes: &[u8],
    out: &mut [u8],
    at: usize,
    checked: Option<Counts>,
    command: Command,
) -> Made
    requires holds { Holds checked t.now m.old }
    requires longest_line_in_bounds { at + longest_line ≤ length out.old }
    ensures effect_gave { EffectGave t.now command bytes.now m.old area.old at out.old m.new area.new out.new result.line_end }
    ensures end_bound { result.line_end ≤ at + longest_line }
    ensures still_holds { Holds result.checked t.now m.new }
{
    if is_start(command) {
        let answer = layer::start(t, m);
        return Made {
            checked,
            line_end: report::put_status(out, at, answer),
        };
    }
    match admit(t, m, fits(command, area), checked) {
        Err(refusal) => Made {
            checked,
            line_end: report::put_status(out, at, Err(refusal)),
        },
        Ok(c) => Made {
            checked: Some(c),
            line_end: perform_admitted(t, c, m, area, bytes, out, at, command),
        },
    }
}

// The call of a command that was admitted, and its line.
fn perform_admitted(
    t: &[u8],
    c: Counts,
    m: &mut [u8],
    area: &mut [u8],
    bytes: &[u8],
    out: &mut [u8],
    at: usize,
    command: Command,
) -> usize
    requires checked { Checked t.now c m.old }
    requires area_size_in_bounds { lends command ≡ true → area_size ≤ length area.old }
    requires command_value { is_start command ≡ false }
    requires longest_line_in_bounds { at + longest_line ≤ length out.old }
    ensures own_gave { OwnGave t.now c command bytes.now m.old area.old at out.old m.new area.new out.new result }
    ensures upper_bound { result ≤ at + longest_line }
    ensures still_checked { Checked t.now c m.new }
{
    let answer = call(t, c, &mut m[..MEMORY_SIZE], area, bytes, command);
    report::put_answer(t, c, area, out, at, command, answer)
}

// Whether the command goes on, or is refused before it looks at its own numbers.
fn admit(t: &[u8], m: &[u8], fits: bool, checked: Option<Counts>) -> Result<Counts, Refusal>
    requires { Holds checked t.now m.now }
    ensures { Admits t.now m.now fits result }
{
    match checked {
        Some(c) => admit_known(t, c, m, fits),
        None => layer::admit(t, m, fits),
    }
}

// Table and memory were found right: what is left is the length of the area, and whether the layer runs.
fn admit_known(t: &[u8], c: Counts, m: &[u8], fits: bool) -> Result<Counts, Refusal>
    requires { Checked t.now c m.now }
    ensures { Admits t.now m.now fits result }
{
    if !fits {
        return Err(Refusal::WrongMemory);
    }
    if memory::read8(m, RUNNING) == 0 {
        return Err(Refusal::Stopped);
    }
    Ok(c)
}

// Whether the request area is long enough for the command.
fn fits(command: Command, area: &[u8]) -> bool
    ensures { result ≡ (not (lends command) || leb area_size (length area.now)) }
{
    !matches!(command, Command::Send(_, _) | Command::Tick) || AREA_SIZE <= area.len()
}

fn is_start(command: Command) -> bool
    ensures { result ≡ is_start command }
{
    matches!(command, Command::Start)
}

// What the command's call does itself. A start is made elsewhere.
fn call(
    t: &[u8],
    c: Counts,
    m: &mut [u8],
    area: &mut [u8],
    bytes: &[u8],
    command: Command,
) -> Answer
    requires ready { Ready t.now c m.old }
    requires area_size_in_bounds { lends command ≡ true → area_size ≤ length area.old }
    requires command_value { is_start command ≡ false }
    ensures area_after { outcome result m.new area.new ≡ own t.now c command bytes.now area.old m.old }
    ensures still_ready { Ready t.now c m.new }
{
    match command {
        Command::Start => Err(Refusal::Stopped),
        Command::Stop => ipdu_calls::stop(m),
        Command::Send(i, v) => object_calls::send(t, c, m, area, i, v),
        Command::Initialise(i, v) => object_calls::initialise(t, c, m, i, v),
        Command::Object(ask, i) => call_of_object(t, c, m, ask, i),
        Command::Periodic(on) => ipdu_calls::periodic(t, c, m, on),
        Command::Indication(k, good) => ipdu_calls::indication(t, c, m, k, good, bytes),
        Command::Confirm(k, good) => ipdu_calls::confirm(t, c, m, k, good),
        Command::Tick => ipdu_calls::tick(t, c, m, area),
    }
}

fn call_of_object(t: &[u8], c: Counts, m: &mut [u8], ask: Ask, i: ObjectNumber) -> Answer
    requires { Ready t.now c m.old }
    ensures m_after { outcome result m.new [] ≡ (describe (call_of (Object ask i) [] [])).does t.now c m.old }
    ensures ready { Ready t.now c m.new }
{
    match ask {
        Ask::Receive => object_calls::receive(t, c, m, i),
        Ask::Status => object_calls::status(t, c, m, i),
        Ask::Marks => object_calls::marks(t, c, m, i),
        Ask::ClearMarks => object_calls::clear_marks(t, c, m, i),
    }
}
