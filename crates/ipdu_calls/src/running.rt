// Stop, start periodic and stop periodic.
ghost use Rattle.std.specs.Prelude.{[], ◌≡◌, ◌≤◌, length};
ghost use Rattle.state.specs.Ranges.{Ready};
ghost use Rattle.calls.specs.Answers.{outcome};
ghost use Rattle.calls.specs.Calls.{stop_in, periodic_in};

use calls::{Answer, Success};
use state::RUNNING;
use table::Counts;

// Notes that the layer is stopped.
pub fn stop(m: &mut [u8]) -> Answer
    requires { 1 ≤ length m.old }
    ensures { outcome result m.new [] ≡ stop_in m.old }
{
    memory::write8(m, RUNNING, 0);
    Ok(Success::Done(0))
}

// Starts the period of each I-PDU that has one, or halts it.
pub fn periodic(t: &[u8], c: Counts, m: &mut [u8], on: bool) -> Answer
    requires { Ready t.now c m.old }
    ensures { outcome result m.new [] ≡ periodic_in on t.now c m.old }
{
    timing::set_periods(t, c, m, on);
    Ok(Success::Done(0))
}
