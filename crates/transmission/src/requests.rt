// The request of one I-PDU, and its bytes in the request area.
ghost use Rattle.std.specs.Prelude.{◌≡◌, ◌+◌, ◌*◌, ◌%◌, ◌^◌, ◌≤◌, ◌<◌, length};
ghost use Rattle.table.specs.Records.{most_ipdus};
ghost use Rattle.memory.specs.Search.{pick};
ghost use Rattle.state.specs.Layout.{area_size, memory_size, ipdu_state, with_ipdu_state};
ghost use Rattle.transmission.specs.Requests.{may_go, is_due, request_made, after_request, copied_to_area, confirmed, timer_set};

use bits::ByteLength;
use config::{Ipdu, Mode};
use state::{IpduState, SLOTS};
use table::IpduNumber;

// Stores the numbers of an I-PDU after a request was wanted. Where the request may go it is made: the I-PDU's bytes are handed
// over in its slot of the area, and the answer is the word of the I-PDU; else the word is 0. The word is a power of two cut to 32 bits, as in
// `bit_where` of ipdu_calls: a function for it would be as long as its two calls.
#[tactic(auto, unfolding(crate::specs::Requests::after_request))]
pub fn try_request(m: &mut [u8], area: &mut [u8], number: IpduNumber, p: Ipdu, s: IpduState) -> u32
    requires number_lt_most_ipdus { number.0 < most_ipdus }
    requires memory_size_in_bounds { (memory_size ≤ length m.old) × (area_size ≤ length area.old) × (p.length.0 ≤ 8) }
    ensures word { result ≡ pick (is_due p s) (2 ^ number.0) 0 }
    ensures memory { m.new ≡ with_ipdu_state m.old number.0 (after_request p s) }
    ensures area { area.new ≡ pick (is_due p s) (copied_to_area p.length.0 number.0 m.old area.old) area.old }
{
    if !is_due(p, s) {
        state::set_ipdu_state(m, number, s);
        return 0;
    }
    copy_to_area(m, area, number, p.length);
    state::set_ipdu_state(m, number, request_made(p, s));
    bits::power_of_two(number.0) as u32
}

// Closes the open request of an I-PDU.
pub fn confirm(m: &mut [u8], number: IpduNumber, p: Ipdu, good: bool)
    requires { (number.0 < most_ipdus) × (memory_size ≤ length m.old) }
    ensures { m.new ≡ with_ipdu_state m.old number.0 (confirmed good p (ipdu_state m.old number.0)) }
{
    let s = state::ipdu_state(m, number);
    state::set_ipdu_state(m, number, confirmed(good, p, s));
}

// Sets the receive timer of an I-PDU to its deadline.
#[tactic(auto, unfolding(crate::specs::Requests::timer_set))]
pub fn set_timer(m: &mut [u8], number: IpduNumber, p: Ipdu)
    requires { (number.0 < most_ipdus) × (memory_size ≤ length m.old) }
    ensures { m.new ≡ with_ipdu_state m.old number.0 (timer_set p (ipdu_state m.old number.0)) }
{
    let s = state::ipdu_state(m, number);
    let next = IpduState {
        timer: p.deadline,
        ..s
    };
    state::set_ipdu_state(m, number, next);
}

// Whether a request may go.
fn may_go(mode: Mode, s: IpduState) -> bool
    ensures { result ≡ may_go mode s }
{
    let idle = (s.delay == 0) & (s.requested == 0);
    (mode == Mode::Periodic) | idle
}

// Whether a request is wanted and may go.
#[tactic(auto, unfolding(crate::specs::Requests::is_due))]
fn is_due(p: Ipdu, s: IpduState) -> bool
    ensures { result ≡ is_due p s }
{
    (s.wanted == 1) & may_go(p.mode, s)
}

// The numbers of an I-PDU after a request was made.
#[tactic(auto, unfolding(crate::specs::Requests::request_made))]
fn request_made(p: Ipdu, s: IpduState) -> IpduState
    ensures { result ≡ request_made p s }
{
    let deadline = if s.requested == 0 {
        p.deadline
    } else {
        s.deadline
    };
    IpduState {
        requested: 1,
        wanted: 0,
        deadline,
        ..s
    }
}

// The numbers of an I-PDU after a confirm.
#[tactic(auto, unfolding(crate::specs::Requests::confirmed))]
fn confirmed(good: bool, p: Ipdu, s: IpduState) -> IpduState
    ensures { result ≡ confirmed good p s }
{
    let delay = if good { p.minimum_delay } else { 0 };
    IpduState {
        requested: 0,
        deadline: 0,
        delay,
        ..s
    }
}

// Copies an I-PDU's bytes into its slot of the request area, with zeros to 8.
fn copy_to_area(m: &[u8], area: &mut [u8], number: IpduNumber, size: ByteLength)
    requires { (number.0 < most_ipdus) × (memory_size ≤ length m.now) × (area_size ≤ length area.old) × (size.0 ≤ 8) }
    ensures { area.new ≡ copied_to_area size.0 number.0 m.now area.old }
{
    let at = 8 * (number.0 as usize);
    let word = memory::read64(m, SLOTS + at);
    memory::write64(area, at, low_bytes(word, size));
}

// The number of the first bytes of a word.
#[tactic(auto, using(memory::proofs::Parts::bytes_bits))]
fn low_bytes(word: u64, size: ByteLength) -> u64
    requires { size.0 ≤ 8 }
    ensures { result ≡ word % 256 ^ size.0 }
{
    let n = size.0;
    if n == 8 {
        word
    } else {
        word % bits::power_of_two(8 * n)
    }
}
