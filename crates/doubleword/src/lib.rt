// What a doubleword of an access wants, what it does to the directory, and what is left between two doublewords.
#![tactic(auto)]

mod change;
mod cursor;

pub use change::{Change, Wanted, change_in_place, change_lru_in_place, changed_by};
pub use cursor::AccessCursor;
