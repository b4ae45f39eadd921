// What each call of document 01 but start does, over an accepted table and a working memory that was found in range: the
// definitions and laws of the calls behind the checks, their answers and the numbers that they are given. `object_calls` and
// `ipdu_calls` have the functions, `layer` the public calls, which check first.
#![tactic(auto)]

mod answers;
mod numbers;

ghost use Rattle.std.specs.Prelude.{◌≡◌};
ghost use Rattle.calls.specs.declared.Refusal.TheVariants.{WrongTable};

pub use answers::{number_of, value_of};
pub use numbers::{is_ipdu, is_object};
use table::WrongRecord;

// What a call gives that is not refused: its result, or with `Limit` a value and that one was lost before.
#[derive(Clone, Copy, Debug, PartialEq, Eq)]
pub enum Success {
    Done(u32),
    Limit(u32),
}

// Why a call is refused.
#[derive(Clone, Copy, Debug, PartialEq, Eq)]
pub enum Refusal {
    WrongId,
    WrongLength,
    NoMessage,
    WrongTable,
    WrongMemory,
    Stopped,
    NotRequested,
}

// A call over a wrong table is refused, whichever record is wrong.
impl From<WrongRecord> for Refusal {
    ghost from_gives = { λ _ r. r ≡ WrongTable };

    fn from(_wrong: WrongRecord) -> Refusal {
        Refusal::WrongTable
    }
}

// What a call answers.
pub type Answer = Result<Success, Refusal>;
