// The period of the I-PDUs that have one.
ghost use Rattle.std.specs.Prelude.{◌≡◌, ◌≤◌, ◌<◌, length};
ghost use Rattle.table.specs.Check.{Shape};
ghost use Rattle.state.specs.Layout.{memory_size};
ghost use Rattle.timing.specs.Periods.{period_set, period_turn, set_periods};
ghost use Rattle.timing.specs.Inner.{NextPeriod};

use config::{Ipdu, Mode};
use state::IpduState;
use table::{Counts, IpduNumber};

// Starts the period of each I-PDU that has one, or halts it. A walk goes from one with a period to the next: with one `for` over all a
// compiler makes vector code of the halt, a kilobyte of it.
pub fn set_periods(t: &[u8], c: Counts, m: &mut [u8], on: bool)
    requires shape { Shape t.now c }
    requires memory_size_in_bounds { memory_size ≤ length m.old }
    ensures { m.new ≡ set_periods on t.now c m.old }
{
    let n = c.ipdus;
    let mut k = next_with_period(t, c, 0);
    while k < n {
        period_turn(t, c, m, on, IpduNumber(k));
        k = next_with_period(t, c, k + 1);
    }
}

// The first I-PDU from `from` on that has a period, or the number of I-PDUs.
fn next_with_period(t: &[u8], c: Counts, from: u32) -> u32
    requires shape { Shape t.now c }
    requires from_le_ipdus { from ≤ c.ipdus }
    ensures { NextPeriod t.now from c.ipdus result }
{
    for k in from..c.ipdus {
        let p = config::decode_ipdu(t, IpduNumber(k));
        if p.mode != Mode::Direct {
            return k;
        }
    }
    c.ipdus
}

// Starts or halts the period of one I-PDU, where it has one.
fn period_turn(t: &[u8], c: Counts, m: &mut [u8], on: bool, number: IpduNumber)
    requires shape { Shape t.now c }
    requires memory_size_in_bounds { (memory_size ≤ length m.old) × (number.0 < c.ipdus) }
    ensures { m.new ≡ period_turn on t.now number.0 m.old }
{
    let p = config::decode_ipdu(t, number);
    if p.mode == Mode::Direct {
        return;
    }
    let s = state::ipdu_state(m, number);
    state::set_ipdu_state(m, number, period_set(on, p, s));
}

// The numbers of an I-PDU after its period was started or halted.
#[tactic(auto, unfolding(crate::specs::Periods::period_set))]
fn period_set(on: bool, p: Ipdu, s: IpduState) -> IpduState
    ensures { result ≡ period_set on p s }
{
    if on {
        IpduState {
            running: 1,
            countdown: p.offset,
            ..s
        }
    } else {
        IpduState { running: 0, ..s }
    }
}
