// The queue of a message object, a ring of as many places as its depth, in working memory. Its functions work on a row in range.
#![tactic(auto)]

ghost use Rattle.std.specs.Prelude.{◌≡◌, ◌+◌, ◌≤◌, ◌<◌, length};
ghost use Rattle.table.specs.Records.{most_queued};
ghost use Rattle.memory.specs.Bytes.{bytes_of, replaced};
ghost use Rattle.memory.specs.Search.{pick};
ghost use Rattle.state.specs.Layout.{object_state};
ghost use Rattle.queue.specs.Queues.{Held, around, place_at, oldest, dequeue};

use state::{ObjectState, QUEUES};
use table::ObjectNumber;

// The oldest value of a queue.
#[tactic(auto, unfolding(crate::specs::Queues::oldest))]
pub fn oldest(m: &[u8], number: ObjectNumber, depth: u32) -> u32
    requires { Held depth number.0 m.now }
    ensures { result ≡ oldest depth number.0 m.now }
{
    let s = state::object_state(m, number);
    memory::read32(m, place_at(depth, s, 0))
}

// Removes the oldest value of a queue that has one, and clears overflow.
#[tactic(auto, unfolding(crate::specs::Queues::dequeue))]
pub fn dequeue(m: &mut [u8], number: ObjectNumber, depth: u32)
    requires held { Held depth number.0 m.old }
    requires count_nonzero { 0 < (object_state m.old number.0).count }
    ensures { m.new ≡ dequeue depth number.0 m.old }
{
    let s = state::object_state(m, number);
    let next = ObjectState {
        overflow: 0,
        head: around(depth, s.head + 1),
        count: s.count - 1,
        ..s
    };
    state::set_object_state(m, number, next);
}

// Writes a value at its place, where it enters the queue.
pub fn enqueue(m: &mut [u8], enters: bool, at: usize, v: u32)
    requires { at + 4 ≤ length m.old }
    ensures { m.new ≡ pick enters (replaced at (bytes_of 4 v) m.old) m.old }
{
    if enters {
        memory::write32(m, at, v);
    }
}

// The byte where the value behind the `n` oldest ones stands.
pub fn place_at(depth: u32, s: ObjectState, n: u32) -> usize
    requires { (s.queue ≤ most_queued) × (s.head ≤ 16) × (n ≤ 16) }
    ensures { result ≡ place_at depth s n }
{
    let place = s.queue + around(depth, s.head + n);
    QUEUES + 4 * (place as usize)
}

// Place `p` of a ring: behind the last place is the first.
fn around(depth: u32, p: u32) -> u32
    ensures { result ≡ around depth p }
{
    if p < depth { p } else { p - depth }
}
