// Tick.
ghost use Rattle.std.specs.Prelude.{[], ◌≡◌, ◌+◌, ◌^◌, ◌≤◌, ◌<◌, length};
ghost use Rattle.table.specs.Records.{most_ipdus, table_length};
ghost use Rattle.memory.specs.Search.{pick};
ghost use Rattle.config.specs.declared.Direction.TheVariants.{Send, Receive};
ghost use Rattle.state.specs.Layout.{memory_size, area_size};
ghost use Rattle.state.specs.Ranges.{Ready};
ghost use Rattle.transmission.specs.Requests.{ipdu};
ghost use Rattle.calls.specs.Answers.{done_with};
ghost use Rattle.calls.specs.Answers.{outcome};
ghost use Rattle.calls.specs.Tick.{tick_in};
ghost use Rattle.ipdu_calls.specs.RowTicks.{row_tick_as, row_tick, due_bit_as, due_bit};

use calls::{Answer, Success};
use config::{Direction, Ipdu};
use table::{Counts, IpduNumber};

// What one I-PDU gives in a tick: its bit where it was requested, and its bit where its time ran out.
#[derive(Clone, Copy)]
struct Turn {
    word: u32,
    due: u32,
}

// Moves all times on by one tick, and answers the word of the I-PDUs that were requested. The objects of those whose time ran out are marked
// at the end, in one walk.
pub fn tick(t: &[u8], c: Counts, m: &mut [u8], area: &mut [u8]) -> Answer
    requires ready { Ready t.now c m.old }
    requires area_size_in_bounds { area_size ≤ length area.old }
    ensures { outcome result m.new area.new ≡ tick_in t.now c area.old m.old }
{
    let mut word = 0;
    let mut due = 0;
    for k in 0..c.ipdus {
        let turn = tick_ipdu(t, m, area, IpduNumber(k));
        word += turn.word;
        due += turn.due;
    }
    if due != 0 {
        delivery::mark_due(t, c, m, due);
    }
    Ok(Success::Done(word))
}

// Moves the times of one I-PDU on, and marks nothing.
fn tick_ipdu(t: &[u8], m: &mut [u8], area: &mut [u8], number: IpduNumber) -> Turn
    requires number_in_bounds { (table_length (number.0 + 1) 0 ≤ length t.now) × ((ipdu t.now number.0).length.0 ≤ 8) }
    requires number_lt_most_ipdus { (number.0 < most_ipdus) × (memory_size ≤ length m.old) × (area_size ≤ length area.old) }
    ensures row { outcome (done_with result.word) m.new area.new ≡ row_tick t.now number.0 area.old m.old }
    ensures due { result.due ≡ due_bit t.now number.0 m.old }
{
    let p = config::decode_ipdu(t, number);
    match p.direction {
        Direction::Send => tick_send(m, area, number, p),
        Direction::Receive => Turn {
            word: 0,
            due: tick_receive(m, number, p),
        },
    }
}

// Delay, deadline, period and request of a send I-PDU. Where none is open, wanted, running or delayed nothing changes.
fn tick_send(m: &mut [u8], area: &mut [u8], number: IpduNumber, p: Ipdu) -> Turn
    requires { (number.0 < most_ipdus) × (memory_size ≤ length m.old) × (area_size ≤ length area.old) × (p.length.0 ≤ 8) }
    ensures row { outcome (done_with result.word) m.new area.new ≡ row_tick_as Send p number.0 area.old m.old }
    ensures due { result.due ≡ due_bit_as Send number.0 m.old }
{
    let r = state::ipdu_state(m, number);
    if (r.requested == 0) & (r.wanted == 0) & (r.running == 0) & (r.delay == 0) {
        return Turn { word: 0, due: 0 };
    }
    let s = timing::tick_delay(r);
    let next = timing::tick_period(p, timing::tick_deadline(s));
    let due = bit_where(number, timing::deadline_expires(s));
    Turn {
        word: transmission::try_request(m, area, number, p, next),
        due,
    }
}

// The timer of a receive I-PDU. Where it does not run nothing changes.
fn tick_receive(m: &mut [u8], number: IpduNumber, p: Ipdu) -> u32
    requires { (number.0 < most_ipdus) × (memory_size ≤ length m.old) }
    ensures row { m.new ≡ (row_tick_as Receive p number.0 [] m.old).memory }
    ensures due { result ≡ due_bit_as Receive number.0 m.old }
{
    let s = state::ipdu_state(m, number);
    if s.timer == 0 {
        return 0;
    }
    state::set_ipdu_state(m, number, timing::tick_timer(p, s));
    bit_where(number, timing::timer_expires(s))
}

// The bit of an I-PDU, where it is due.
fn bit_where(number: IpduNumber, due: bool) -> u32
    requires { number.0 < most_ipdus }
    ensures { result ≡ pick due (2 ^ number.0) 0 }
{
    if due {
        bits::power_of_two(number.0) as u32
    } else {
        0
    }
}
