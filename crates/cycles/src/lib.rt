// All cycles that a doubleword asks for: a plain read's, a fill's, a write's. No bytes are moved here: nothing changes RAM during the
// cycles of a read, and a write stores its bytes before them.
#![tactic(auto)]

mod fill;
mod plain;
mod write;

pub use fill::fill_cycles;
pub use plain::plain_cycles;
pub use write::write_cycles;
