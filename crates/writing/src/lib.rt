// One doubleword of a write, by lent fields of the directory: it decides the directory's change, and the caller makes it, so
// that the directory is not copied here.
#![tactic(auto)]

mod next;
mod writing;

pub use next::{NextWritten, write_next};
