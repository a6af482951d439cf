// The steps on a directory whose arrays are lent, so that nothing is copied. A caller that owns the directory lends it field by
// field; what a contract says holds whatever the fields are that a step is not lent.
ghost use Rattle.std.specs.Prelude.{◌≡◌, Bool, cond, List, ℕ, ◌<◌};
ghost use Rattle.numbers.specs.Numbers.{answer_of};
ghost use Rattle.ranges.specs.declared.Ranges.{Ranges};
ghost use Rattle.ways.specs.Address.{set_count, way_count};
ghost use Rattle.directory.specs.Outcome.{outcome};
ghost use Rattle.directory.specs.Steps.{after_fill, after_flush, after_reset, after_snoop, after_use, control_call, control_refused, directory_of, snoop_call, with_line};

use numbers::Refusal;
use ways::{Arrays, LINES, SETS, WAYS, lookup, lru_after, set_of};

// A use of a way.
pub fn use_in_place(lru: &mut [u8; SETS], set: usize, way: usize)
    requires { (set < set_count) × (way < way_count) }
    ensures { (tags : List ℕ) (valid : List Bool) (cd nw : Bool) (ranges : Ranges) → directory_of tags valid lru.new cd nw ranges
        ≡ after_use (directory_of tags valid lru.old cd nw ranges) set way }
{
    let old = lru[set];
    lru[set] = lru_after(old, way);
}

// The plain step of a test write: any tag and either mark, and no use of the way.
pub fn line_in_place(
    tags: &mut [u32; LINES],
    valid: &mut [bool; LINES],
    set: usize,
    way: usize,
    tag: u32,
    mark: bool,
)
    requires { (set < set_count) × (way < way_count) }
    ensures { (lru : List ℕ) (cd nw : Bool) (ranges : Ranges) → directory_of tags.new valid.new lru cd nw ranges
        ≡ with_line (directory_of tags.old valid.old lru cd nw ranges) set way tag mark }
{
    let index = set * WAYS + way;
    tags[index] = tag;
    valid[index] = mark;
}

// A kept fill of a way, which is a use of it.
pub fn fill_in_place(
    tags: &mut [u32; LINES],
    valid: &mut [bool; LINES],
    lru: &mut [u8; SETS],
    set: usize,
    way: usize,
    tag: u32,
)
    requires { (set < set_count) × (way < way_count) }
    ensures { (cd nw : Bool) (ranges : Ranges) → directory_of tags.new valid.new lru.new cd nw ranges
        ≡ after_fill (directory_of tags.old valid.old lru.old cd nw ranges) set way tag }
{
    line_in_place(tags, valid, set, way, tag, true);
    use_in_place(lru, set, way);
}

pub fn flush_in_place(valid: &mut [bool; LINES], lru: &mut [u8; SETS])
    ensures { (tags : List ℕ) (cd nw : Bool) (ranges : Ranges) → directory_of tags valid.new lru.new cd nw ranges
        ≡ after_flush (directory_of tags valid.old lru.old cd nw ranges) }
{
    *valid = [false; LINES];
    *lru = [0u8; SETS];
}

// The plain snoop step.
pub fn invalidate_in_place<'a>(
    tags: &'a [u32; LINES],
    valid: &'a mut [bool; LINES],
    nw: bool,
    address: u32,
)
    ensures { (lru : List ℕ) (cd : Bool) (ranges : Ranges) → directory_of tags.now valid.new lru cd nw ranges
        ≡ after_snoop (directory_of tags.now valid.old lru cd nw ranges) address }
{
    if nw {
        return;
    }
    let Some(way) = lookup(tags, valid, address) else {
        return;
    };
    let index = set_of(address) * WAYS + way;
    valid[index] = false;
}

// The snoop call: the state of the address's set is checked first, whatever NW is.
pub fn snoop_in_place<'a>(
    tags: &'a [u32; LINES],
    valid: &'a mut [bool; LINES],
    lru: &'a [u8; SETS],
    nw: bool,
    address: u32,
) -> Result<(), Refusal>
    ensures { (cd : Bool) (ranges : Ranges) → outcome (directory_of tags.now valid.new lru.now cd nw ranges) (answer_of result) 0 0
        ≡ snoop_call (directory_of tags.now valid.old lru.now cd nw ranges) address }
{
    let arrays = Arrays { tags, valid, lru };
    arrays.state_number(set_of(address))?;
    invalidate_in_place(tags, valid, nw, address);
    Ok(())
}

// What a control call asks, in place and by value: CD = 0 with NW = 1 is refused.
pub fn control_number(cd: bool, nw: bool) -> Result<(), Refusal>
    ensures { answer_of result ≡ cond (control_refused cd nw) 9 0 }
{
    if !cd & nw {
        return Err(Refusal::WrongControl);
    }
    Ok(())
}

// The control call, which refuses CD = 0 with NW = 1.
pub fn control_in_place(
    cd: &mut bool,
    nw: &mut bool,
    new_cd: bool,
    new_nw: bool,
) -> Result<(), Refusal>
    ensures { (tags : List ℕ) (valid : List Bool) (lru : List ℕ) (ranges : Ranges) → outcome (directory_of tags valid lru cd.new nw.new ranges) (answer_of result) 0 0
        ≡ control_call (directory_of tags valid lru cd.old nw.old ranges) new_cd new_nw }
{
    control_number(new_cd, new_nw)?;
    *cd = new_cd;
    *nw = new_nw;
    Ok(())
}

// It is not lent the ranges, which a reset keeps.
pub fn reset_in_place(
    tags: &mut [u32; LINES],
    valid: &mut [bool; LINES],
    lru: &mut [u8; SETS],
    cd: &mut bool,
    nw: &mut bool,
)
    ensures { (ranges : Ranges) → directory_of tags.new valid.new lru.new cd.new nw.new ranges
        ≡ after_reset (directory_of tags.old valid.old lru.old cd.old nw.old ranges) }
{
    *tags = [0u32; LINES];
    flush_in_place(valid, lru);
    *cd = true;
    *nw = true;
}
