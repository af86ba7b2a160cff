// The seat roster as a list of cells, gone along by calls of the store alone: a cell of the list has the entry's cell and the next cell of the list, the
// entry's cell the seat and the reading as atoms. For the crate `roster`, and for no one else.
#![tactic(auto)]

mod ask;
mod atoms;
mod settling;
mod tally;
mod walk;

pub use ask::store_asked;
pub use atoms::{atom, value_of};
pub use settling::settle;
pub use tally::count;
pub use walk::{Part, Place, entry_word, find, pass};
