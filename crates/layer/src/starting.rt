// Start: all of working memory, written from the table.
ghost use Rattle.std.specs.Prelude.{[], ◌≡◌};
ghost use Rattle.calls.specs.Answers.{outcome};
ghost use Rattle.layer.specs.Step.{start, step};

use calls::{Answer, Refusal, Success};
use state::MEMORY_SIZE;

// Starts the layer, from any bytes in memory.
pub fn start(t: &[u8], m: &mut [u8]) -> Answer
    ensures { outcome result m.new [] ≡ step t.now start m.old }
{
    let c = table::check(t)?;
    if m.len() < MEMORY_SIZE {
        return Err(Refusal::WrongMemory);
    }
    startup::write_all(t, c, &mut m[..MEMORY_SIZE]);
    Ok(Success::Done(0))
}
