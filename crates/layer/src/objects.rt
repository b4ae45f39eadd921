// The calls about one object once more, for a crate over the layer that has asked `goes_on`: the same calls, and what they ask of their
// caller is that they would not be refused before they look at their own numbers.
ghost use Rattle.std.specs.Prelude.{◌≡◌};
ghost use Rattle.layer.specs.Promises.{refusal_of, refusal, Goes, answered, received, status_read, marks_read, marks_cleared, reads_signed};

use super::checks;
use calls::{Answer, Refusal};
use state::MEMORY_SIZE;
use table::ObjectNumber;

// Whether a call goes on, or why it is refused before it looks at its own numbers; `fits` is whether what else it is lent is right.
#[tactic(auto, using(crate::proofs::GoesOn::goes_when, crate::proofs::GoesOn::refused_when))]
pub fn goes_on(t: &[u8], m: &[u8], fits: bool) -> Result<(), Refusal>
    ensures { refusal_of result ≡ refusal t.now m.now fits }
{
    checks::admit(t, m, fits)?;
    Ok(())
}

// The four calls stay apart. A generic one would take the call as a closure, which needs a contract of its own that says what the call does, and
// each of the four would be as long as it is.

// As `receive`.
#[tactic(auto, using(crate::proofs::GoesOn::goes_header, crate::proofs::GoesOn::goes_long, crate::proofs::GoesOn::goes_exact, crate::proofs::GoesOn::goes_ready))]
pub fn receive_admitted(t: &[u8], m: &mut [u8], object: u32) -> Answer
    requires { Goes t.now m.old }
    ensures { answered result m.new ≡ received t.now object m.old }
{
    let c = table::header_counts(t);
    object_calls::receive(t, c, &mut m[..MEMORY_SIZE], ObjectNumber(object))
}

// As `status`.
#[tactic(auto, using(crate::proofs::GoesOn::goes_header, crate::proofs::GoesOn::goes_exact, crate::proofs::GoesOn::goes_ready))]
pub fn status_admitted(t: &[u8], m: &[u8], object: u32) -> Answer
    requires { Goes t.now m.now }
    ensures { answered result m.now ≡ status_read t.now object m.now }
{
    let c = table::header_counts(t);
    object_calls::status(t, c, &m[..MEMORY_SIZE], ObjectNumber(object))
}

// As `marks`.
#[tactic(auto, using(crate::proofs::GoesOn::goes_header, crate::proofs::GoesOn::goes_exact, crate::proofs::GoesOn::goes_ready))]
pub fn marks_admitted(t: &[u8], m: &[u8], object: u32) -> Answer
    requires { Goes t.now m.now }
    ensures { answered result m.now ≡ marks_read t.now object m.now }
{
    let c = table::header_counts(t);
    object_calls::marks(t, c, &m[..MEMORY_SIZE], ObjectNumber(object))
}

// As `clear_marks`.
#[tactic(auto, using(crate::proofs::GoesOn::goes_header, crate::proofs::GoesOn::goes_long, crate::proofs::GoesOn::goes_exact, crate::proofs::GoesOn::goes_ready))]
pub fn clear_marks_admitted(t: &[u8], m: &mut [u8], object: u32) -> Answer
    requires { Goes t.now m.old }
    ensures { answered result m.new ≡ marks_cleared t.now object m.old }
{
    let c = table::header_counts(t);
    object_calls::clear_marks(t, c, &mut m[..MEMORY_SIZE], ObjectNumber(object))
}

// Whether an object's values are signed.
#[tactic(auto, using(crate::proofs::GoesOn::goes_header, crate::proofs::GoesOn::goes_shape), unfolding(crate::specs::Promises::reads_signed))]
pub fn signed_admitted(t: &[u8], m: &[u8], object: u32) -> bool
    requires { Goes t.now m.now }
    ensures { result ≡ reads_signed t.now object }
{
    let c = table::header_counts(t);
    config::is_signed(t, c, ObjectNumber(object))
}
