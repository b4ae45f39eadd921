// The commands of a script (W-201) over table, memory and area: each is admitted or refused as the layer's calls are, but where
// table and memory are known to be right only a start checks the table again; its line is put into a lent buffer.
#![tactic(auto)]

mod examining;
mod performing;

pub use examining::examine;
pub use performing::perform;
use table::Counts;

// What a command came to: the table's counts where table and memory are known to be right, and the place behind the line that it
// printed.
#[derive(Clone, Copy)]
pub struct Made {
    pub checked: Option<Counts>,
    pub line_end: usize,
}
