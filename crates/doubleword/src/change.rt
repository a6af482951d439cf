// What a doubleword wants, and what it does to the directory.
ghost use Rattle.std.specs.Prelude.{◌≡◌, Bool, List, ℕ};
ghost use Rattle.ranges.specs.declared.Ranges.{Ranges};
ghost use Rattle.directory.specs.Steps.{directory_of};
ghost use Rattle.doubleword.specs.Doubleword.{changed};
ghost use Rattle.doubleword.specs.DoublewordCode.{BelowFour, NoFill};

use directory::Directory;
use ways::{LINES, SETS};

// What a doubleword does to the directory: nothing, a use of a way, or a kept fill of a way.
#[derive(Clone, Copy)]
pub enum Change {
    Unchanged,
    Use(usize),
    Fill(usize),
}

// The wanted bytes of a doubleword: the address of its line, their offset in it, how many, and their place in the operand.
#[derive(Clone, Copy)]
pub struct Wanted {
    pub line: u32,
    pub from: usize,
    pub count: usize,
    pub place: usize,
}

// The change made in lent LRU numbers, for one that is no fill: the one step of a doubleword.
#[tactic(auto, unfolding(crate::specs::Doubleword::changed))]
pub fn change_lru_in_place(lru: &mut [u8; SETS], line: u32, change: Change)
    requires { BelowFour change × NoFill change }
    ensures { (tags : List ℕ) (valid : List Bool) (cd nw : Bool) (ranges : Ranges) → directory_of tags valid lru.new cd nw ranges
        ≡ changed (directory_of tags valid lru.old cd nw ranges) line change }
{
    match change {
        Change::Use(way) => directory::use_in_place(lru, ways::set_of(line), way),
        Change::Unchanged | Change::Fill(_) => {}
    }
}

// The change made in lent arrays.
#[tactic(auto, unfolding(crate::specs::Doubleword::changed))]
pub fn change_in_place(
    tags: &mut [u32; LINES],
    valid: &mut [bool; LINES],
    lru: &mut [u8; SETS],
    line: u32,
    change: Change,
)
    requires { BelowFour change }
    ensures { (cd nw : Bool) (ranges : Ranges) → directory_of tags.new valid.new lru.new cd nw ranges
        ≡ changed (directory_of tags.old valid.old lru.old cd nw ranges) line change }
{
    match change {
        Change::Fill(way) => {
            directory::fill_in_place(
                tags,
                valid,
                lru,
                ways::set_of(line),
                way,
                ways::tag_of(line),
            )
        }
        Change::Unchanged | Change::Use(_) => change_lru_in_place(lru, line, change),
    }
}

// The same by value: the change made in the arrays of the directory that it is given.
pub fn changed_by(mut directory: Directory, line: u32, change: Change) -> Directory
    requires { BelowFour change }
    ensures { result ≡ changed directory line change }
{
    let lent = &mut directory;
    change_in_place(&mut lent.tags, &mut lent.valid, &mut lent.lru, line, change);
    directory
}
