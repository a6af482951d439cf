// One doubleword of a read, by lent arrays of the directory: it decides the directory's change, and the caller makes it, so
// that the directory is not copied here.
#![tactic(auto)]

mod next;
mod reading;

pub use next::{NextRead, read_next, with_part};
