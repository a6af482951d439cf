// The cycles of one doubleword's bytes: their records. What the doubleword says and the parity that its bytes ask for are worked out
// once, and the record of a cycle is some lanes of that.
#![tactic(auto)]

mod lanes;
mod part;
mod whole;

pub use lanes::{Transfer, due_bits};
