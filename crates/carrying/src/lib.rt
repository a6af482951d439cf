// One doubleword of a read that carries writes, by lent fields of the directory. The cycles ask nothing of the directory, so that the
// caller snoops what landed during them, and then the line is kept in the victim's place.
#![tactic(auto)]

mod cycle;
mod miss;
mod next;
mod run;

pub use next::{CarriedRead, carried_next, settle};
