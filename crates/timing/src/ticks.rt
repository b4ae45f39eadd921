// What a tick does to the times of one I-PDU. Each time has a function of its own: what else changes when it runs out differs, so that one
// function for all would take as many parameters as it has lines.
ghost use Rattle.std.specs.Prelude.{◌≡◌};
ghost use Rattle.timing.specs.Ticks.{tick_delay, deadline_expires, tick_deadline, period_elapses, tick_period, timer_expires, tick_timer};

use config::Ipdu;
use state::IpduState;

// The numbers of a send I-PDU with its delay a tick shorter.
#[tactic(auto, unfolding(crate::specs::Ticks::tick_delay))]
pub fn tick_delay(s: IpduState) -> IpduState
    ensures { result ≡ tick_delay s }
{
    IpduState {
        delay: s.delay.saturating_sub(1),
        ..s
    }
}

// Whether the deadline of an open request runs out in this tick.
#[tactic(auto, unfolding(crate::specs::Ticks::deadline_expires))]
pub fn deadline_expires(s: IpduState) -> bool
    ensures { result ≡ deadline_expires s }
{
    (s.requested == 1) & (s.deadline <= 1)
}

// The numbers of a send I-PDU with its deadline a tick nearer.
#[tactic(auto, unfolding(crate::specs::Ticks::tick_deadline))]
pub fn tick_deadline(s: IpduState) -> IpduState
    ensures { result ≡ tick_deadline s }
{
    if deadline_expires(s) {
        IpduState {
            requested: 0,
            deadline: 0,
            delay: 0,
            ..s
        }
    } else if s.requested == 1 {
        IpduState {
            deadline: s.deadline.saturating_sub(1),
            ..s
        }
    } else {
        s
    }
}

// Whether the period's countdown runs out in this tick.
#[tactic(auto, unfolding(crate::specs::Ticks::period_elapses))]
fn period_elapses(s: IpduState) -> bool
    ensures { result ≡ period_elapses s }
{
    (s.running == 1) & (s.countdown <= 1)
}

// The numbers of a send I-PDU with its period's countdown a tick lower.
#[tactic(auto, unfolding(crate::specs::Ticks::tick_period))]
pub fn tick_period(p: Ipdu, s: IpduState) -> IpduState
    ensures { result ≡ tick_period p s }
{
    if period_elapses(s) {
        IpduState {
            countdown: p.period,
            wanted: 1,
            ..s
        }
    } else if s.running == 1 {
        IpduState {
            countdown: s.countdown.saturating_sub(1),
            ..s
        }
    } else {
        s
    }
}

// Whether the timer of a receive I-PDU runs out in this tick.
#[tactic(auto, unfolding(crate::specs::Ticks::timer_expires))]
pub fn timer_expires(s: IpduState) -> bool
    ensures { result ≡ timer_expires s }
{
    s.timer == 1
}

// The numbers of a receive I-PDU with its timer a tick lower.
#[tactic(auto, unfolding(crate::specs::Ticks::tick_timer))]
pub fn tick_timer(p: Ipdu, s: IpduState) -> IpduState
    ensures { result ≡ tick_timer p s }
{
    let timer = if timer_expires(s) {
        p.deadline
    } else {
        s.timer.saturating_sub(1)
    };
    IpduState { timer, ..s }
}
