// The four ways of a set: the parts of an address, LRU numbers, the way that holds a line, the victim, what is wrong with a
// set. Each is asked of the directory's arrays, which are lent, so that asking copies nothing.
#![tactic(auto)]

mod address;
mod lru;
mod sizes;
mod state;
mod ways;

pub use address::{data_offset, line_offset, set_of, tag_of};
pub use lru::lru_after;
pub use sizes::{DATA_SIZE, LINES, SETS, WAYS};
pub use state::{Arrays, sound_set, state_number};
pub use ways::{lookup, victim};
