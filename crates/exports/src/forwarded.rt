// The calls of the layer under C names. Each takes what document 01 lends it, and answers its number and value.
#![tactic(auto, using(crate::proofs::Forwards::forwards))]

ghost use Rattle.std.specs.Prelude.{not, [], ◌≡◌};
ghost use Rattle.calls.specs.Answers.{number_of, value_of};
ghost use Rattle.layer.specs.Step.{start, stop, send, initialise, receive, status, marks, clear_marks, start_periodic, stop_periodic, indication, confirm, tick, step};
ghost use Rattle.exports.specs.Results.{call_result, result_of, is_good};

use super::Answer;
use table::{IpduNumber, ObjectNumber};

#[unsafe(no_mangle)]
pub extern "C" fn birnenschloss_start(t: &[u8], m: &mut [u8]) -> Answer
    ensures { call_result result m.new [] ≡ result_of (step t.now start m.old) }
{
    answer_of(layer::start(t, m))
}

#[unsafe(no_mangle)]
pub extern "C" fn birnenschloss_stop(t: &[u8], m: &mut [u8]) -> Answer
    ensures { call_result result m.new [] ≡ result_of (step t.now stop m.old) }
{
    answer_of(layer::stop(t, m))
}

#[unsafe(no_mangle)]
pub extern "C" fn birnenschloss_send(
    t: &[u8],
    m: &mut [u8],
    area: &mut [u8],
    object: u32,
    value: u32,
) -> Answer
    ensures { call_result result m.new area.new ≡ result_of (step t.now (send object value area.old) m.old) }
{
    answer_of(layer::send(t, m, area, ObjectNumber(object), value))
}

#[unsafe(no_mangle)]
pub extern "C" fn birnenschloss_initialise(
    t: &[u8],
    m: &mut [u8],
    object: u32,
    value: u32,
) -> Answer
    ensures { call_result result m.new [] ≡ result_of (step t.now (initialise object value) m.old) }
{
    answer_of(layer::initialise(t, m, ObjectNumber(object), value))
}

#[unsafe(no_mangle)]
pub extern "C" fn birnenschloss_receive(t: &[u8], m: &mut [u8], object: u32) -> Answer
    ensures { call_result result m.new [] ≡ result_of (step t.now (receive object) m.old) }
{
    answer_of(layer::receive(t, m, ObjectNumber(object)))
}

#[unsafe(no_mangle)]
pub extern "C" fn birnenschloss_status(t: &[u8], m: &[u8], object: u32) -> Answer
    ensures { call_result result m.now [] ≡ result_of (step t.now (status object) m.now) }
{
    answer_of(layer::status(t, m, ObjectNumber(object)))
}

#[unsafe(no_mangle)]
pub extern "C" fn birnenschloss_marks(t: &[u8], m: &[u8], object: u32) -> Answer
    ensures { call_result result m.now [] ≡ result_of (step t.now (marks object) m.now) }
{
    answer_of(layer::marks(t, m, ObjectNumber(object)))
}

#[unsafe(no_mangle)]
pub extern "C" fn birnenschloss_clear_marks(t: &[u8], m: &mut [u8], object: u32) -> Answer
    ensures { call_result result m.new [] ≡ result_of (step t.now (clear_marks object) m.old) }
{
    answer_of(layer::clear_marks(t, m, ObjectNumber(object)))
}

#[unsafe(no_mangle)]
pub extern "C" fn birnenschloss_start_periodic(t: &[u8], m: &mut [u8]) -> Answer
    ensures { call_result result m.new [] ≡ result_of (step t.now start_periodic m.old) }
{
    answer_of(layer::start_periodic(t, m))
}

#[unsafe(no_mangle)]
pub extern "C" fn birnenschloss_stop_periodic(t: &[u8], m: &mut [u8]) -> Answer
    ensures { call_result result m.new [] ≡ result_of (step t.now stop_periodic m.old) }
{
    answer_of(layer::stop_periodic(t, m))
}

#[unsafe(no_mangle)]
pub extern "C" fn birnenschloss_indication(
    t: &[u8],
    m: &mut [u8],
    ipdu: u32,
    good: u32,
    bytes: &[u8],
) -> Answer
    ensures { call_result result m.new [] ≡ result_of (step t.now (indication ipdu (is_good good) bytes.now) m.old) }
{
    answer_of(layer::indication(t, m, IpduNumber(ipdu), good != 0, bytes))
}

#[unsafe(no_mangle)]
pub extern "C" fn birnenschloss_confirm(t: &[u8], m: &mut [u8], ipdu: u32, good: u32) -> Answer
    ensures { call_result result m.new [] ≡ result_of (step t.now (confirm ipdu (is_good good)) m.old) }
{
    answer_of(layer::confirm(t, m, IpduNumber(ipdu), good != 0))
}

#[unsafe(no_mangle)]
pub extern "C" fn birnenschloss_tick(t: &[u8], m: &mut [u8], area: &mut [u8]) -> Answer
    ensures { call_result result m.new area.new ≡ result_of (step t.now (tick area.old) m.old) }
{
    answer_of(layer::tick(t, m, area))
}

// An answer as its number and value.
pub fn answer_of(answer: layer::Answer) -> Answer
    ensures { result ≡ record { number = number_of answer; value = value_of answer } }
{
    Answer {
        number: layer::number_of(answer),
        value: layer::value_of(answer),
    }
}
