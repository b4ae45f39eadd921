// Answers as document 01's numbers and values.
ghost use Rattle.std.specs.Prelude.{◌≡◌};
ghost use Rattle.calls.specs.Answers.{number_of, value_of};

use super::{Answer, Refusal, Success};

// Document 01's number of an answer.
pub fn number_of(answer: Answer) -> u32
    ensures { result ≡ number_of answer }
{
    match answer {
        Ok(Success::Done(_)) => 0,
        Err(Refusal::WrongId) => 1,
        Err(Refusal::WrongLength) => 2,
        Ok(Success::Limit(_)) => 3,
        Err(Refusal::NoMessage) => 4,
        Err(Refusal::WrongTable) => 5,
        Err(Refusal::WrongMemory) => 6,
        Err(Refusal::Stopped) => 7,
        Err(Refusal::NotRequested) => 8,
    }
}

// What an answer returns with its number.
pub fn value_of(answer: Answer) -> u32
    ensures { result ≡ value_of answer }
{
    match answer {
        Ok(Success::Done(value) | Success::Limit(value)) => value,
        Err(_) => 0,
    }
}
