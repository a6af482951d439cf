// The read call on a directory whose arrays are lent: nothing of the directory is copied. A read does not look at NW, so the contract
// holds for either value.
ghost use Rattle.std.specs.Prelude.{◌≡◌, Bool, [], length};
ghost use Rattle.ranges.specs.declared.Ranges.{Ranges};
ghost use Rattle.ranges.specs.Ranges.{kept_ranges};
ghost use Rattle.refusal.specs.Refusal.{argument_number, kept_number, lent_number, or_else, states_number_in};
ghost use Rattle.refusal.specs.Call.{lent_state};
ghost use Rattle.access.specs.Access.{leaves, read_call};

use access::{CallResult, number_only};
use doubleword::{AccessCursor, change_in_place};
use ranges::Kept;
use reading::{read_next, with_part};
use refusal::read_number;
use ways::{Arrays, LINES, SETS};

// The doublewords of a read whose number is 0, by any ranges that meet neither 37 nor 38: it writes nothing, so they tell it nothing more.
fn read_accepted<'a>(
    tags: &'a mut [u32; LINES],
    valid: &'a mut [bool; LINES],
    lru: &'a mut [u8; SETS],
    cd: bool,
    ram: &[u8],
    parity: &[u8],
    data: &mut [u8],
    address: u32,
    width: u32,
    pcd: bool,
    answers: &[u8],
    log: &mut [u32],
) -> CallResult
    requires { or_else (lent_number (length ram.now) (length parity.now) (length «data».old))
        (or_else (argument_number (length ram.now) address width answers.now (length log.old)) (states_number_in tags.old valid.old lru.old address width)) ≡ 0 }
    ensures { (nw : Bool) (ranges : Ranges) → kept_number (length ram.now) ranges ≡ 0 →
        leaves result (lent_state tags.new valid.new lru.new cd nw ranges ram.now parity.now «data».new) log.new
        ≡ read_call (lent_state tags.old valid.old lru.old cd nw ranges ram.now parity.now «data».old) address width pcd answers.now log.old [] }
{
    let mut value: u64 = 0;
    let mut cursor = AccessCursor::begin(address, width);
    while 0 < cursor.left {
        let next = read_next(
            Arrays { tags, valid, lru },
            !cd & !pcd,
            &ram[..],
            &parity[..],
            data,
            &answers[..],
            log,
            cursor,
        );
        change_in_place(tags, valid, lru, next.line, next.change);
        value = with_part(value, cursor.place, next.value);
        cursor = cursor.next(next.count, next.cycles);
    }
    CallResult {
        number: 0,
        cycles: cursor.cycles as u32,
        value,
    }
}

pub fn read_in_place<'a, 'b>(
    tags: &'a mut [u32; LINES],
    valid: &'a mut [bool; LINES],
    lru: &'a mut [u8; SETS],
    cd: bool,
    ranges: Kept<'b>,
    ram: &[u8],
    parity: &[u8],
    data: &mut [u8],
    address: u32,
    width: u32,
    pcd: bool,
    answers: &[u8],
    log: &mut [u32],
) -> CallResult
    ensures { (nw : Bool) → leaves result (lent_state tags.new valid.new lru.new cd nw (kept_ranges ranges.entry) ram.now parity.now «data».new) log.new
        ≡ read_call (lent_state tags.old valid.old lru.old cd nw (kept_ranges ranges.entry) ram.now parity.now «data».old) address width pcd answers.now log.old [] }
{
    let number = read_number(
        Arrays { tags, valid, lru },
        ranges,
        ram,
        parity,
        data,
        address,
        width,
        answers,
        log,
    );
    match number {
        Err(refusal) => number_only(refusal.number()),
        Ok(()) => read_accepted(
            tags,
            valid,
            lru,
            cd,
            &ram[..],
            &parity[..],
            data,
            address,
            width,
            pcd,
            &answers[..],
            log,
        ),
    }
}
