// What is wrong with a set: the numbers 21 to 23.
ghost use Rattle.std.specs.Prelude.{◌≡◌, Bool, true, false, List, ◌<◌};
ghost use Rattle.numbers.specs.Numbers.{answer_of};
ghost use Rattle.ways.specs.Ways.{tag_in};
ghost use Rattle.ways.specs.State.{first_number, same_pair, same_tags, state_number_in, tag_above, tags_above};
ghost use Rattle.ways.specs.Address.{set_count, way_count};

use crate::sizes::{LINES, SETS, WAYS};
use numbers::Refusal;

// Whether two ways of a set are valid and have one tag.
fn same_pair<'a>(
    tags: &'a [u32; LINES],
    valid: &'a [bool; LINES],
    set: usize,
    way: usize,
    other: usize,
) -> bool
    requires { (set < set_count) × (way < way_count) × (other < way_count) }
    ensures { result ≡ same_pair tags.now valid.now set way other }
{
    let index = set * WAYS + way;
    let other_index = set * WAYS + other;
    valid[index] & valid[other_index] & (tags[index] == tags[other_index])
}

fn same_tags<'a>(tags: &'a [u32; LINES], valid: &'a [bool; LINES], set: usize) -> bool
    requires { set < set_count }
    ensures { result ≡ same_tags tags.now valid.now set }
{
    same_pair(tags, valid, set, 0, 1)
        | same_pair(tags, valid, set, 0, 2)
        | same_pair(tags, valid, set, 0, 3)
        | same_pair(tags, valid, set, 1, 2)
        | same_pair(tags, valid, set, 1, 3)
        | same_pair(tags, valid, set, 2, 3)
}

// Whether a way of a set is valid and its tag has more than 21 bits.
fn tag_above<'a>(tags: &'a [u32; LINES], valid: &'a [bool; LINES], set: usize, way: usize) -> bool
    requires { (set < set_count) × (way < way_count) }
    ensures { result ≡ tag_above tags.now valid.now set way }
{
    let index = set * WAYS + way;
    valid[index] & (2097151 < tags[index])
}

fn tags_above<'a>(tags: &'a [u32; LINES], valid: &'a [bool; LINES], set: usize) -> bool
    requires { set < set_count }
    ensures { result ≡ tags_above tags.now valid.now set }
{
    tag_above(tags, valid, set, 0)
        | tag_above(tags, valid, set, 1)
        | tag_above(tags, valid, set, 2)
        | tag_above(tags, valid, set, 3)
}

// The lowest number of what is wrong with a set.
fn first_number(same: bool, above: bool, lru: u8) -> Result<(), Refusal>
    ensures { answer_of result ≡ first_number same above lru }
{
    if same {
        return Err(Refusal::TwoOfOneTag);
    }
    if above {
        return Err(Refusal::LargeTag);
    }
    if 7 < lru {
        return Err(Refusal::LargeLru);
    }
    Ok(())
}

fn tag_at(tags: &[u32; LINES], set: usize, way: usize) -> u32
    requires { (set < set_count) × (way < way_count) }
    ensures { result ≡ tag_in tags.now set way }
{
    let index = set * WAYS + way;
    tags[index]
}

// Whether the four tags of a set differ and are at most the limit, so that no valid mark matters.
fn sound_tags(tags: &[u32; LINES], set: usize) -> bool
    requires { set < set_count }
    ensures { result ≡ true → (valid : List Bool) → (same_tags tags.now valid set ≡ false) × (tags_above tags.now valid set ≡ false) }
{
    let tag0 = tag_at(tags, set, 0);
    let tag1 = tag_at(tags, set, 1);
    let tag2 = tag_at(tags, set, 2);
    let tag3 = tag_at(tags, set, 3);
    let differ = (tag0 != tag1)
        & (tag0 != tag2)
        & (tag0 != tag3)
        & (tag1 != tag2)
        & (tag1 != tag3)
        & (tag2 != tag3);
    let within = (tag0 <= 2097151) & (tag1 <= 2097151) & (tag2 <= 2097151) & (tag3 <= 2097151);
    differ & within
}

// Whether the tags and the LRU number of a set alone tell that it meets no number.
pub fn sound_set<'a>(tags: &'a [u32; LINES], lru: &'a [u8; SETS], set: usize) -> bool
    requires { set < set_count }
    ensures { result ≡ true → (valid : List Bool) → state_number_in tags.now valid lru.now set ≡ 0 }
{
    sound_tags(tags, set) & (lru[set] <= 7)
}

// The lowest number that a set meets. Nearly always the quick test tells that it meets none. The arrays come one by one, so that a
// caller hands them over in registers.
pub fn state_number<'a>(
    tags: &'a [u32; LINES],
    valid: &'a [bool; LINES],
    lru: &'a [u8; SETS],
    set: usize,
) -> Result<(), Refusal>
    requires { set < set_count }
    ensures { answer_of result ≡ state_number_in tags.now valid.now lru.now set }
{
    if sound_set(tags, lru, set) {
        return Ok(());
    }
    first_number(
        same_tags(tags, valid, set),
        tags_above(tags, valid, set),
        lru[set],
    )
}

// The arrays of a directory, lent: the line of a set and a way is element set * WAYS + way of tags and valid.
#[derive(Clone, Copy)]
pub struct Arrays<'a> {
    pub tags: &'a [u32; LINES],
    pub valid: &'a [bool; LINES],
    pub lru: &'a [u8; SETS],
}

impl<'a> Arrays<'a> {
    // The lowest number that a set meets.
    #[inline(always)]
    pub fn state_number(self, set: usize) -> Result<(), Refusal>
        requires { set < set_count }
        ensures { answer_of result ≡ state_number_in self.entry.tags.now self.entry.valid.now self.entry.lru.now set }
    {
        let tags = self.tags;
        let valid = self.valid;
        let lru = self.lru;
        state_number(tags, valid, lru, set)
    }
}
