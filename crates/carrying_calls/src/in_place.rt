// The read call that carries writes on a directory whose arrays are lent: nothing of the directory is copied.
ghost use Rattle.std.specs.Prelude.{◌≡◌, Bool, List, ℕ, ◌≤◌, length};
ghost use Rattle.ranges.specs.declared.Ranges.{Ranges};
ghost use Rattle.ranges.specs.Ranges.{kept_ranges};
ghost use Rattle.directory.specs.Steps.{directory_of};
ghost use Rattle.carried.specs.CarriedCode.{carried_of};
ghost use Rattle.refusal.specs.Refusal.{argument_number, carried_number, carried_states_number_in, kept_number, lent_number, or_else, states_number_in};
ghost use Rattle.refusal.specs.Call.{lent_state};
ghost use Rattle.access.specs.Access.{leaves, read_call};
ghost use Rattle.carrying_calls.specs.CarryingCalls.{EndNeeds, Ended, snooped_to};

use access::{CallResult, number_only};
use carried::{CarriedWrites, land, taken_writes};
use carrying::{CarriedRead, carried_next, settle};
use directory::invalidate_in_place;
use doubleword::{AccessCursor, change_in_place};
use ranges::Kept;
use reading::with_part;
use refusal::read_carrying_number;
use ways::{Arrays, LINES, SETS};

// The snoops of the writes of some places, in list order.
fn snoop_in_place<'a>(
    tags: &'a [u32; LINES],
    valid: &'a mut [bool; LINES],
    nw: bool,
    carried: CarriedWrites,
    from: usize,
    to: usize,
)
    requires { (from ≤ to) × (to ≤ carried.count) × (carried.count ≤ 4) }
    ensures { (lru : List ℕ) (cd : Bool) (ranges : Ranges) → directory_of tags.now valid.new lru cd nw ranges
        ≡ snooped_to carried from to (directory_of tags.now valid.old lru cd nw ranges) }
{
    for k in from..to {
        invalidate_in_place(tags, valid, nw, carried.addresses[k]);
    }
}

// The end of a doubleword: what landed during its cycles is snooped and drops a fill that it spoiled, whatever NW is; then a kept line
// goes into the victim's place and the directory is changed. from: how many of the writes had landed before it.
fn end_in_place<'a>(
    tags: &'a mut [u32; LINES],
    valid: &'a mut [bool; LINES],
    lru: &'a mut [u8; SETS],
    nw: bool,
    data: &mut [u8],
    carried: CarriedWrites,
    from: usize,
    read: CarriedRead,
)
    requires { EndNeeds carried from read (length «data».old) }
    ensures { (cd : Bool) (ranges : Ranges) → Ended carried from read (directory_of tags.old valid.old lru.old cd nw ranges) «data».old
        (directory_of tags.new valid.new lru.new cd nw ranges) «data».new }
{
    snoop_in_place(tags, valid, nw, carried, from, read.landed);
    let kept = !read.spoiled & read.ken;
    let change = settle(valid, lru, data, read, kept);
    change_in_place(tags, valid, lru, read.line, change);
}

// The doublewords of a read whose number is 0, and the writes left after them, by the bytes that RAM takes of each.
fn read_accepted<'a, 'b>(
    tags: &'a mut [u32; LINES],
    valid: &'a mut [bool; LINES],
    lru: &'a mut [u8; SETS],
    cd: bool,
    nw: bool,
    ranges: Kept<'b>,
    ram: &mut [u8],
    parity: &mut [u8],
    data: &mut [u8],
    address: u32,
    width: u32,
    pcd: bool,
    answers: &[u8],
    log: &mut [u32],
    carried: CarriedWrites,
) -> CallResult
    requires { or_else (lent_number (length ram.old) (length parity.old) (length «data».old))
        (or_else (argument_number (length ram.old) address width answers.now (length log.old))
        (or_else (carried_number (length ram.old) (carried_of carried))
        (or_else (kept_number (length ram.old) (kept_ranges ranges))
        (or_else (states_number_in tags.old valid.old lru.old address width) (carried_states_number_in tags.old valid.old lru.old (carried_of carried)))))) ≡ 0 }
    ensures { leaves result (lent_state tags.new valid.new lru.new cd nw (kept_ranges ranges.entry) ram.new parity.new «data».new) log.new
        ≡ read_call (lent_state tags.old valid.old lru.old cd nw (kept_ranges ranges.entry) ram.old parity.old «data».old) address width pcd answers.now log.old (carried_of carried) }
{
    let taken = taken_writes(carried, ranges);
    let mut value: u64 = 0;
    let mut landed: usize = 0;
    let mut cursor = AccessCursor::begin(address, width);
    while 0 < cursor.left {
        let read = carried_next(
            tags,
            valid,
            !cd & !pcd,
            ram,
            parity,
            &data[..],
            &answers[..],
            log,
            cursor,
            taken,
            landed,
        );
        end_in_place(tags, valid, lru, nw, data, taken, landed, read);
        value = with_part(value, cursor.place, read.value);
        cursor = cursor.next(read.count, read.cycles);
        landed = read.landed;
    }
    let count = taken.count as usize;
    land(taken, landed, count, ram, parity);
    snoop_in_place(tags, valid, nw, taken, landed, count);
    CallResult {
        number: 0,
        cycles: cursor.cycles as u32,
        value,
    }
}

pub fn read_carrying_in_place<'a, 'b>(
    tags: &'a mut [u32; LINES],
    valid: &'a mut [bool; LINES],
    lru: &'a mut [u8; SETS],
    cd: bool,
    nw: bool,
    ranges: Kept<'b>,
    ram: &mut [u8],
    parity: &mut [u8],
    data: &mut [u8],
    address: u32,
    width: u32,
    pcd: bool,
    answers: &[u8],
    log: &mut [u32],
    carried: CarriedWrites,
) -> CallResult
    ensures { leaves result (lent_state tags.new valid.new lru.new cd nw (kept_ranges ranges.entry) ram.new parity.new «data».new) log.new
        ≡ read_call (lent_state tags.old valid.old lru.old cd nw (kept_ranges ranges.entry) ram.old parity.old «data».old) address width pcd answers.now log.old (carried_of carried) }
{
    let number = read_carrying_number(
        Arrays { tags, valid, lru },
        ranges,
        ram,
        parity,
        data,
        address,
        width,
        answers,
        log,
        carried,
    );
    match number {
        Err(refusal) => number_only(refusal.number()),
        Ok(()) => read_accepted(
            tags,
            valid,
            lru,
            cd,
            nw,
            ranges,
            ram,
            parity,
            data,
            address,
            width,
            pcd,
            &answers[..],
            log,
            carried,
        ),
    }
}
