// Stores, calls and replies as lines of text, in the form of reference/FORMAT.md, for programs that run a crate's calls over a list. Which calls
// there are is theirs to know. Of a list that isn't of that form nothing is said but that reading it is safe and ends.
#![tactic(auto)]

mod checksum;
mod input;
mod lines;
mod queue;
mod replies;
mod runs;

pub use input::{Call, Numbers, TEXT, input_array, text_array, text_of};
pub use lines::{SCRATCH, Store, TABLE};
pub use replies::{NotShown, Reply, Shown, write_call};
pub use runs::Runs;
