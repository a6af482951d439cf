// The write call on a directory whose arrays are lent, as the read call in place. It changes no tag and no valid mark.
ghost use Rattle.std.specs.Prelude.{◌≡◌, length};
ghost use Rattle.ranges.specs.Ranges.{kept_ranges};
ghost use Rattle.refusal.specs.Refusal.{argument_number, kept_number, lent_number, or_else, states_number_in, value_number};
ghost use Rattle.refusal.specs.Call.{lent_state};
ghost use Rattle.access.specs.Access.{leaves, write_call};

use access::{CallResult, number_only};
use doubleword::{AccessCursor, change_lru_in_place};
use ranges::Kept;
use refusal::write_number;
use ways::{Arrays, LINES, SETS};
use writing::write_next;

// The doublewords of a write whose number is 0.
fn write_accepted<'a>(
    tags: &'a [u32; LINES],
    valid: &'a [bool; LINES],
    lru: &'a mut [u8; SETS],
    cd: bool,
    nw: bool,
    ranges: Kept<'a>,
    ram: &mut [u8],
    parity: &mut [u8],
    data: &mut [u8],
    address: u32,
    width: u32,
    value: u64,
    answers: &[u8],
    log: &mut [u32],
) -> CallResult
    requires { or_else (lent_number (length ram.old) (length parity.old) (length «data».old))
        (or_else (argument_number (length ram.old) address width answers.now (length log.old))
        (or_else (value_number width value)
        (or_else (kept_number (length ram.old) (kept_ranges ranges)) (states_number_in tags.now valid.now lru.old address width)))) ≡ 0 }
    ensures { leaves result (lent_state tags.now valid.now lru.new cd nw (kept_ranges ranges.entry) ram.new parity.new «data».new) log.new
        ≡ write_call (lent_state tags.now valid.now lru.old cd nw (kept_ranges ranges.entry) ram.old parity.old «data».old) address width value answers.now log.old }
{
    let mut cursor = AccessCursor::begin(address, width);
    while 0 < cursor.left {
        let next = write_next(
            tags,
            valid,
            cd & nw,
            ranges,
            ram,
            parity,
            data,
            &answers[..],
            log,
            value,
            cursor,
        );
        change_lru_in_place(lru, next.line, next.change);
        cursor = cursor.next(next.count, next.cycles);
    }
    CallResult {
        number: 0,
        cycles: cursor.cycles as u32,
        value: 0,
    }
}

pub fn write_in_place<'a>(
    tags: &'a [u32; LINES],
    valid: &'a [bool; LINES],
    lru: &'a mut [u8; SETS],
    cd: bool,
    nw: bool,
    ranges: Kept<'a>,
    ram: &mut [u8],
    parity: &mut [u8],
    data: &mut [u8],
    address: u32,
    width: u32,
    value: u64,
    answers: &[u8],
    log: &mut [u32],
) -> CallResult
    ensures { leaves result (lent_state tags.now valid.now lru.new cd nw (kept_ranges ranges.entry) ram.new parity.new «data».new) log.new
        ≡ write_call (lent_state tags.now valid.now lru.old cd nw (kept_ranges ranges.entry) ram.old parity.old «data».old) address width value answers.now log.old }
{
    let number = write_number(
        Arrays { tags, valid, lru },
        ranges,
        ram,
        parity,
        data,
        address,
        width,
        value,
        answers,
        log,
    );
    match number {
        Err(refusal) => number_only(refusal.number()),
        Ok(()) => write_accepted(
            tags,
            valid,
            lru,
            cd,
            nw,
            ranges,
            ram,
            parity,
            data,
            address,
            width,
            value,
            &answers[..],
            log,
        ),
    }
}
