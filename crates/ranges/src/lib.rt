// Read-only ranges: what a directory keeps of them, whether an address lies in one, and whether one is wrong.
#![tactic(auto)]

ghost use Rattle.std.specs.Prelude.{◌≡◌, ℕ, ◌*◌, ◌/◌, ◌^◌, ◌≤◌, ◌<◌, Bool, min};
ghost use Rattle.std.specs.List.{list_any};
ghost use Rattle.ranges.specs.Ranges.{Range, any_bad, bad_range, in_range, kept_ranges, range, ranges_in, ranges_of, read_only};

// The most ranges, and the words that they take.
pub const RANGES_MOST: u32 = 8;

pub const BOUNDS: usize = 16;

// What a directory keeps: how many ranges, and two words of each, its start and its bytes. A host can make a count above eight.
#[repr(C)]
#[derive(Clone, Copy)]
pub struct Ranges {
    pub count: u32,
    pub bounds: [u32; BOUNDS],
}

// How many words of the ranges that are kept count.
fn kept_words(count: u32) -> usize
    ensures { (result ≡ 2 * min count 8) × (result ≤ 16) }
{
    2 * count.min(RANGES_MOST) as usize
}

// Whether a test holds of one of the ranges that words say. All are asked, so that there is no branch on an answer; a start left over
// at the end has no size.
fn any_range<F: Fn(u32, u32) -> bool>(words: &[u32], test: F) -> bool
    requires { F.IsAlwaysCallable test }
    ensures { (p : Range → Bool) → ((start size : ℕ) (hit : Bool) → start < 2 ^ 32 → size < 2 ^ 32 → F.post test start size hit → hit ≡ p (range start size))
        → result ≡ list_any p (ranges_in words.now) }
{
    let (pairs, last) = words.as_chunks::<2>();
    let mut found = false;
    for pair in pairs {
        found |= test(pair[0], pair[1]);
    }
    if last.is_empty() {
        found
    } else {
        found | test(last[0], 0)
    }
}

// By the address of the line.
fn in_range(start: u32, size: u32, address: u32) -> bool
    ensures { result ≡ in_range (range start size) address }
{
    let line = address / 16 * 16;
    let end = start as usize + size as usize;
    (start <= line) & ((line as usize) < end)
}

fn bad_range(ram: usize, start: u32, size: u32) -> bool
    ensures { result ≡ bad_range ram (range start size) }
{
    let end = start as usize + size as usize;
    (size == 0) | (start % 16 != 0) | (size % 16 != 0) | (ram < end)
}

// Whether one of some ranges is wrong.
pub fn any_bad(ram: usize, words: &[u32]) -> bool
    ensures { result ≡ any_bad ram (ranges_in words.now) }
{
    any_range(words, |start, size| bad_range(ram, start, size))
}

// The ranges that a directory keeps, lent.
#[derive(Clone, Copy)]
pub struct Kept<'a> {
    pub count: u32,
    pub bounds: &'a [u32; BOUNDS],
}

impl<'a> Kept<'a> {
    // Whether an address lies in a range that is kept. Most directories keep none.
    pub fn read_only(self, address: u32) -> bool
        ensures { result ≡ read_only (ranges_of (kept_ranges self.entry)) address }
    {
        if self.count == 0 {
            return false;
        }
        let bounds = self.bounds;
        any_range(
            &bounds[..kept_words(self.count)],
            |start, size| in_range(start, size, address),
        )
    }

    // Whether one of them is wrong, by RAM's length.
    pub fn any_bad(self, ram: usize) -> bool
        ensures { result ≡ any_bad ram (ranges_of (kept_ranges self.entry)) }
    {
        if self.count == 0 {
            return false;
        }
        let bounds = self.bounds;
        any_bad(ram, &bounds[..kept_words(self.count)])
    }
}
