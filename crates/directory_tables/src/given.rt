// The directories that the rows begin with, and what is asked of one. Lines and LRU numbers are stored to the fields, so that no row
// depends on fills or uses, which other rows test.
ghost use Rattle.std.specs.Prelude.{◌<◌};
ghost use Rattle.ways.specs.Address.{set_count, way_count};

use directory::Directory;
use numbers::answer_of;
use ways::{Arrays, WAYS};

// The set that the rows ask about.
pub const SET: usize = 5;

// Every pair of CD and NW.
pub const MODES: [(bool, bool); 4] = [(false, false), (false, true), (true, false), (true, true)];

// Any tag and either mark of one line, which is no use of its way.
pub fn with_line(mut d: Directory, set: usize, way: usize, tag: u32, valid: bool) -> Directory
    requires { (set < set_count) × (way < way_count) }
{
    let line = set * WAYS + way;
    d.tags[line] = tag;
    d.valid[line] = valid;
    d
}

// A reset directory but for SET, whose ways are valid with tags 10 to 13.
pub fn full_set(lru: u8) -> Directory {
    let mut d = Directory::first();
    for way in 0..WAYS {
        d = with_line(d, SET, way, 10 + way as u32, true);
    }
    d.lru[SET] = lru;
    d
}

// An address of SET.
pub fn address(tag: u32, byte: u32) -> u32
    requires { (tag < 2097152) × (byte < 16) }
{
    tag * 2048 + SET as u32 * 16 + byte
}

// The way of SET that a fill replaces.
#[tactic(auto, using(ways::proofs::FourWays::victim_below))]
pub fn victim(d: &Directory) -> usize
    ensures { result < way_count }
{
    ways::victim(&d.valid, &d.lru, SET)
}

pub fn is_held(d: &Directory, address: u32) -> bool {
    ways::lookup(&d.tags, &d.valid, address).is_some()
}

// The number that refuses a call on SET.
pub fn refusal(d: &Directory) -> u32 {
    let arrays = Arrays {
        tags: &d.tags,
        valid: &d.valid,
        lru: &d.lru,
    };
    answer_of(arrays.state_number(SET))
}
