// Questions about the four ways of a set, on lent arrays, so that asking copies nothing.
ghost use Rattle.std.specs.Prelude.{◌≡◌, cond, not, ◌+◌, ◌<◌, ◌≤◌};
ghost use Rattle.ways.specs.Ways.{holds, lookup_in, lowest, valid_in, victim_in};
ghost use Rattle.ways.specs.Address.{set_count, way_count};

use crate::address::{set_of, tag_of};
use crate::lru::lru_way;
use crate::sizes::{LINES, SETS, WAYS};

// The lowest of some ways whose test holds, counted from the first: that one, or else one of those after it.
fn lowest_from(test: bool, later: usize) -> usize
    requires { later < way_count }
    ensures { (result ≡ cond test 0 (1 + later)) × (result ≤ 1 + later) }
{
    if test { 0 } else { 1 + later }
}

// The lowest way whose test holds, if one does. It is counted, and 4 says that there is none: the compiler makes no branches of that.
fn lowest_way(test0: bool, test1: bool, test2: bool, test3: bool) -> Option<usize>
    ensures { result ≡ lowest test0 test1 test2 test3 }
{
    let way = lowest_from(
        test0,
        lowest_from(test1, lowest_from(test2, lowest_from(test3, 0))),
    );
    if way < WAYS { Some(way) } else { None }
}

// Whether a way of a set holds a tag.
fn holds_tag<'a>(
    tags: &'a [u32; LINES],
    valid: &'a [bool; LINES],
    set: usize,
    way: usize,
    tag: u32,
) -> bool
    requires { (set < set_count) × (way < way_count) }
    ensures { result ≡ holds tags.now valid.now set way tag }
{
    let index = set * WAYS + way;
    valid[index] & (tags[index] == tag)
}

// The way that holds the line of an address.
pub fn lookup<'a>(tags: &'a [u32; LINES], valid: &'a [bool; LINES], address: u32) -> Option<usize>
    ensures { result ≡ lookup_in tags.now valid.now address }
{
    let set = set_of(address);
    let tag = tag_of(address);
    lowest_way(
        holds_tag(tags, valid, set, 0, tag),
        holds_tag(tags, valid, set, 1, tag),
        holds_tag(tags, valid, set, 2, tag),
        holds_tag(tags, valid, set, 3, tag),
    )
}

fn is_invalid(valid: &[bool; LINES], set: usize, way: usize) -> bool
    requires { (set < set_count) × (way < way_count) }
    ensures { result ≡ not (valid_in valid.now set way) }
{
    let index = set * WAYS + way;
    !valid[index]
}

// The way of a set that a kept fill replaces.
pub fn victim<'a>(valid: &'a [bool; LINES], lru: &'a [u8; SETS], set: usize) -> usize
    requires { set < set_count }
    ensures { result ≡ victim_in valid.now lru.now set }
{
    let invalid = lowest_way(
        is_invalid(valid, set, 0),
        is_invalid(valid, set, 1),
        is_invalid(valid, set, 2),
        is_invalid(valid, set, 3),
    );
    invalid.unwrap_or(lru_way(lru[set]))
}
