// The parts of an address, and where the data array holds its line.
ghost use Rattle.std.specs.Prelude.{◌≡◌, ◌+◌, ◌≤◌, ◌<◌};
ghost use Rattle.ways.specs.Address.{data_offset, data_size, line_offset, set_count, set_of, tag_of, way_count};

use crate::sizes::{SETS, WAYS};

pub fn tag_of(address: u32) -> u32
    ensures { result ≡ tag_of address }
{
    address / 2048
}

pub fn set_of(address: u32) -> usize
    ensures { result ≡ set_of address }
{
    address as usize / 16 % SETS
}

// Where the data array holds the line of a set and a way.
pub fn line_offset(set: usize, way: usize) -> usize
    requires { (set < set_count) × (way < way_count) }
    ensures { (result ≡ line_offset set way) × (result + 16 ≤ data_size) }
{
    (set * WAYS + way) * 16
}

// Where the data array holds the line of an address, in a way.
pub fn data_offset(line: u32, way: usize) -> usize
    requires { way < way_count }
    ensures { (result ≡ data_offset line way) × (result + 16 ≤ data_size) }
{
    line_offset(set_of(line), way)
}
