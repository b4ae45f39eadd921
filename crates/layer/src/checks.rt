// What every call but start checks first, in this order: the table, memory and area, whether the layer is stopped.
ghost use Rattle.layer.specs.Admission.{Admits};

use calls::Refusal;
use state::{MEMORY_SIZE, RUNNING};
use table::Counts;

// The counts of the table where a call over it and this memory goes on; `fits` is whether its request area is long enough.
pub fn admit(t: &[u8], m: &[u8], fits: bool) -> Result<Counts, Refusal>
    ensures { Admits t.now m.now fits result }
{
    let c = table::check(t)?;
    if m.len() < MEMORY_SIZE || !fits {
        return Err(Refusal::WrongMemory);
    }
    let working = &m[..MEMORY_SIZE];
    if !ranges::in_range(t, c, working) {
        return Err(Refusal::WrongMemory);
    }
    if memory::read8(working, RUNNING) == 0 {
        return Err(Refusal::Stopped);
    }
    Ok(c)
}
