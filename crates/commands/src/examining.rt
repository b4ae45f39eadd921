// Table and memory before the first line of a part.
ghost use Rattle.std.specs.Prelude.{◌≡◌};
ghost use Rattle.table.specs.Check.{check};
ghost use Rattle.commands.specs.Given.{Holds};

use state::MEMORY_SIZE;
use table::Counts;

// The table's counts where it is right, and the memory long enough with every stored number in its range.
pub fn examine(t: &[u8], m: &[u8]) -> Option<Counts>
    ensures { Holds result t.now m.now }
{
    let c = table::check(t).ok()?;
    examine_memory(t, c, m)
}

fn examine_memory(t: &[u8], c: Counts, m: &[u8]) -> Option<Counts>
    requires { check t.now ≡ Ok c }
    ensures { Holds result t.now m.now }
{
    if m.len() < MEMORY_SIZE {
        return None;
    }
    ranges::in_range(t, c, &m[..MEMORY_SIZE]).then_some(c)
}
