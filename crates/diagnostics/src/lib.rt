// Diagnostic disks: test calls that plant a line and read one back, by value and in place. They work only with CD = 1 and look at
// no state of a set, so that a disk sees whatever a directory holds.
#![tactic(auto)]

mod by_value;
mod in_place;
mod number;

pub use by_value::{TestRead, test_read, test_write};
pub use in_place::{TestLine, test_read_in_place, test_write_in_place};
