// Another master's write on a directory whose arrays are lent, so that nothing of it is copied. CD is not looked at, so the contract
// holds for either value.
ghost use Rattle.std.specs.Prelude.{◌≡◌, Bool, List, [], ℕ};
ghost use Rattle.numbers.specs.Numbers.{answer_of};
ghost use Rattle.ranges.specs.Ranges.{kept_ranges};
ghost use Rattle.directory.specs.Outcome.{outcome};
ghost use Rattle.directory.specs.Steps.{directory_of};
ghost use Rattle.memory.specs.Parity.{memory};
ghost use Rattle.refusal.specs.Call.{after, state};
ghost use Rattle.masters.specs.Masters.{external_call};

use crate::taken::{external_write_number, put_bytes};
use directory::{LINES, SETS, invalidate_in_place};
use numbers::Refusal;
use ranges::Kept;
use ways::Arrays;

pub fn external_write_in_place<'a>(
    tags: &'a [u32; LINES],
    valid: &'a mut [bool; LINES],
    lru: &'a [u8; SETS],
    nw: bool,
    ranges: Kept<'a>,
    ram: &mut [u8],
    parity: &mut [u8],
    address: u32,
    bytes: &[u8],
) -> Result<(), Refusal>
    ensures { (cd : Bool) (array : List ℕ) →
        after (outcome (directory_of tags.now valid.new lru.now cd nw (kept_ranges ranges.entry)) (answer_of result) 0 0) (memory ram.new parity.new) array []
        ≡ external_call (state (directory_of tags.now valid.old lru.now cd nw (kept_ranges ranges.entry)) (memory ram.old parity.old) array) address bytes.now }
{
    let arrays = Arrays { tags, valid, lru };
    external_write_number(
        arrays,
        ranges,
        ram.len(),
        parity.len(),
        address,
        bytes.len(),
    )?;
    put_bytes(ranges, ram, parity, address, bytes);
    invalidate_in_place(tags, valid, nw, address);
    Ok(())
}
