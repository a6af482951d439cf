// Another master's write, by value and in place.
#![tactic(auto)]

ghost use Rattle.std.specs.Prelude.{◌≡◌, List, [], ℕ};
ghost use Rattle.memory.specs.Parity.{memory};
ghost use Rattle.masters.specs.Masters.{external_call};
ghost use Rattle.refusal.specs.Call.{after, state};

mod in_place;
mod taken;

use directory::{Directory, Outcome};
pub use in_place::external_write_in_place;
use ranges::Kept;
use taken::{external_write_number, put_bytes};
use ways::Arrays;

// Another master's write: the bytes into RAM with their parity, then a snoop. The data array is not touched.
pub fn external_write(
    given: Directory,
    ram: &mut [u8],
    parity: &mut [u8],
    address: u32,
    bytes: &[u8],
) -> Outcome
    ensures { (array : List ℕ) → after result (memory ram.new parity.new) array []
        ≡ external_call (state given (memory ram.old parity.old) array) address bytes.now }
{
    let arrays = Arrays {
        tags: &given.tags,
        valid: &given.valid,
        lru: &given.lru,
    };
    let ranges = Kept {
        count: given.ranges.count,
        bounds: &given.ranges.bounds,
    };
    if let Err(refusal) = external_write_number(
        arrays,
        ranges,
        ram.len(),
        parity.len(),
        address,
        bytes.len(),
    ) {
        return given.answered(refusal.number());
    }
    put_bytes(ranges, ram, parity, address, bytes);
    given.snooped(address).answered(0)
}
