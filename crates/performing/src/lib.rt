// One event line on the unit, by the calls in place.
#![tactic(auto)]

ghost use Rattle.std.specs.Prelude.{◌≡◌, Bool, List, [], ℕ, ◌≤◌, length};
ghost use Rattle.ranges.specs.Ranges.{kept_ranges};
ghost use Rattle.directory.specs.Steps.{directory_of};
ghost use Rattle.memory.specs.Parity.{memory};
ghost use Rattle.refusal.specs.Call.{lent_state, state};
ghost use Rattle.calls.specs.Calls.{external, read, step, write};
ghost use Rattle.board.specs.Board.{board_answers};
ghost use Rattle.fields.specs.Fields.{pair_bytes};
ghost use Rattle.lines.specs.Scan.{longest_line};
ghost use Rattle.performing.specs.Perform.{Leaves, line_done, zero_log};

use access::{CallResult, number_only};
use board::BLOCKS;
use bus::LOG_WORDS;
use directory::{Directory, control_in_place, flush_in_place, reset_in_place, snoop_in_place};
use fields::pair_bytes;
use lines::{Event, LONGEST_LINE, scan};
use masters::external_write_in_place;
use numbers::answer_of;
use ranges::Kept;
use read_calls::read_in_place;
use ways::{LINES, SETS};
use write_calls::write_in_place;

// The line's event with the board's answers by a table. A malformed line answers 11.
pub fn perform(
    table: &[u8; BLOCKS],
    directory: &mut Directory,
    ram: &mut [u8],
    parity: &mut [u8],
    data: &mut [u8],
    line: &[u8],
) -> CallResult
    ensures { Leaves (line_done table.now (state directory.old (memory ram.old parity.old) «data».old) line.now)
        result (state directory.new (memory ram.new parity.new) «data».new) }
{
    let kept = Kept {
        count: directory.ranges.count,
        bounds: &directory.ranges.bounds,
    };
    perform_in_place(
        table,
        &mut directory.tags,
        &mut directory.valid,
        &mut directory.lru,
        &mut directory.cd,
        &mut directory.nw,
        kept,
        ram,
        parity,
        data,
        line,
    )
}

// The same on a directory whose fields are lent. No event sets ranges, so they are only read.
pub fn perform_in_place<'a, 'b>(
    table: &[u8; BLOCKS],
    tags: &'a mut [u32; LINES],
    valid: &'a mut [bool; LINES],
    lru: &'a mut [u8; SETS],
    cd: &mut bool,
    nw: &mut bool,
    ranges: Kept<'b>,
    ram: &mut [u8],
    parity: &mut [u8],
    data: &mut [u8],
    line: &[u8],
) -> CallResult
    ensures { Leaves (line_done table.now (lent_state tags.old valid.old lru.old cd.old nw.old (kept_ranges ranges.entry) ram.old parity.old «data».old) line.now)
        result (lent_state tags.new valid.new lru.new cd.new nw.new (kept_ranges ranges.entry) ram.new parity.new «data».new) }
{
    let Some(event) = scan(line) else {
        return number_only(11);
    };
    // Lent anew, for as long as the arrays are.
    let kept = Kept {
        count: ranges.count,
        bounds: &*ranges.bounds,
    };
    match event {
        Event::Read(a, size, pcd) => perform_read(
            table, tags, valid, lru, *cd, kept, ram, parity, data, a, size, pcd,
        ),
        Event::Write(a, size, value) => {
            perform_write(
                table, tags, valid, lru, *cd, *nw, kept, ram, parity, data, a, size, value,
            )
        }
        Event::External(a, from) => {
            perform_external(tags, valid, lru, *nw, kept, ram, parity, a, &line[from..])
        }
        Event::Snoop(a) => number_only(answer_of(snoop_in_place(tags, valid, lru, *nw, a))),
        Event::Flush => {
            flush_in_place(valid, lru);
            number_only(0)
        }
        Event::Control(new_cd, new_nw) => {
            number_only(answer_of(control_in_place(cd, nw, new_cd, new_nw)))
        }
        Event::Reset => {
            reset_in_place(tags, valid, lru, cd, nw);
            number_only(0)
        }
    }
}

// A read with the board's answers and a log that is not shown.
fn perform_read<'a, 'b>(
    table: &[u8; BLOCKS],
    tags: &'a mut [u32; LINES],
    valid: &'a mut [bool; LINES],
    lru: &'a mut [u8; SETS],
    cd: bool,
    ranges: Kept<'b>,
    ram: &[u8],
    parity: &[u8],
    data: &mut [u8],
    address: u32,
    width: u32,
    pcd: bool,
) -> CallResult
    ensures { (nw : Bool) → Leaves (step (lent_state tags.old valid.old lru.old cd nw (kept_ranges ranges.entry) ram.now parity.now «data».old) (read address width pcd (board_answers table.now address width) zero_log []))
        result (lent_state tags.new valid.new lru.new cd nw (kept_ranges ranges.entry) ram.now parity.now «data».new) }
{
    let answers = board::board_answers(table, address, width);
    let mut log = [0u32; LOG_WORDS];
    read_in_place(
        tags, valid, lru, cd, ranges, ram, parity, data, address, width, pcd, &answers, &mut log,
    )
}

// A write with the board's answers and a log that is not shown.
fn perform_write<'a>(
    table: &[u8; BLOCKS],
    tags: &'a [u32; LINES],
    valid: &'a [bool; LINES],
    lru: &'a mut [u8; SETS],
    cd: bool,
    nw: bool,
    ranges: Kept<'a>,
    ram: &mut [u8],
    parity: &mut [u8],
    data: &mut [u8],
    address: u32,
    width: u32,
    value: u64,
) -> CallResult
    ensures { Leaves (step (lent_state tags.now valid.now lru.old cd nw (kept_ranges ranges.entry) ram.old parity.old «data».old) (write address width value (board_answers table.now address width) zero_log))
        result (lent_state tags.now valid.now lru.new cd nw (kept_ranges ranges.entry) ram.new parity.new «data».new) }
{
    let answers = board::board_answers(table, address, width);
    let mut log = [0u32; LOG_WORDS];
    write_in_place(
        tags, valid, lru, cd, nw, ranges, ram, parity, data, address, width, value, &answers,
        &mut log,
    )
}

// An external write of the bytes that the pairs say.
fn perform_external<'a>(
    tags: &'a [u32; LINES],
    valid: &'a mut [bool; LINES],
    lru: &'a [u8; SETS],
    nw: bool,
    ranges: Kept<'a>,
    ram: &mut [u8],
    parity: &mut [u8],
    address: u32,
    pairs: &[u8],
) -> CallResult
    requires { length pairs.now ≤ longest_line }
    ensures { (cd : Bool) (array : List ℕ) → Leaves (step (state (directory_of tags.now valid.old lru.now cd nw (kept_ranges ranges.entry)) (memory ram.old parity.old) array) (external address (pair_bytes pairs.now)))
        result (state (directory_of tags.now valid.new lru.now cd nw (kept_ranges ranges.entry)) (memory ram.new parity.new) array) }
{
    let mut bytes = [0u8; LONGEST_LINE];
    let count = pair_bytes(pairs, &mut bytes);
    number_only(answer_of(external_write_in_place(
        tags,
        valid,
        lru,
        nw,
        ranges,
        ram,
        parity,
        address,
        &bytes[..count],
    )))
}
