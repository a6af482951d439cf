// The calls on a directory whose arrays are lent, for a host that holds one. Where a call looks at only one of CD and NW or at no
// range, its contract holds whatever the others are.
ghost use Rattle.std.specs.Prelude.{◌≡◌, Bool, List, [], ℕ};
ghost use Rattle.ranges.specs.declared.Ranges.{Ranges};
ghost use Rattle.ranges.specs.Ranges.{lent_ranges};
ghost use Rattle.directory.specs.Steps.{after_flush, after_reset, control_call, directory_of, snoop_call};
ghost use Rattle.memory.specs.Parity.{memory};
ghost use Rattle.carried.specs.CarriedCode.{carried_of};
ghost use Rattle.directory.specs.Outcome.{outcome};
ghost use Rattle.refusal.specs.Call.{after, lent_state, state};
ghost use Rattle.access.specs.Access.{leaves, read_call, write_call};
ghost use Rattle.masters.specs.Masters.{external_call};

use access::CallResult;
use carried::CarriedWrites;
use directory::{LINES, SETS};
use numbers::answer_of;
use ranges::{BOUNDS, Kept};

#[unsafe(no_mangle)]
pub extern "C" fn unit486_read_in_place<'a>(
    tags: &'a mut [u32; LINES],
    valid: &'a mut [bool; LINES],
    lru: &'a mut [u8; SETS],
    cd: bool,
    range_count: u32,
    bounds: &'a [u32; BOUNDS],
    ram: &[u8],
    parity: &[u8],
    data: &mut [u8],
    address: u32,
    width: u32,
    pcd: bool,
    answers: &[u8],
    log: &mut [u32],
) -> CallResult
    ensures { (nw : Bool) → leaves result (lent_state tags.new valid.new lru.new cd nw (lent_ranges range_count bounds.now) ram.now parity.now «data».new) log.new
        ≡ read_call (lent_state tags.old valid.old lru.old cd nw (lent_ranges range_count bounds.now) ram.now parity.now «data».old) address width pcd answers.now log.old [] }
{
    read_calls::read_in_place(
        tags,
        valid,
        lru,
        cd,
        Kept {
            count: range_count,
            bounds,
        },
        ram,
        parity,
        data,
        address,
        width,
        pcd,
        answers,
        log,
    )
}

#[unsafe(no_mangle)]
pub extern "C" fn unit486_read_carrying_in_place<'a>(
    tags: &'a mut [u32; LINES],
    valid: &'a mut [bool; LINES],
    lru: &'a mut [u8; SETS],
    cd: bool,
    nw: bool,
    range_count: u32,
    bounds: &'a [u32; BOUNDS],
    ram: &mut [u8],
    parity: &mut [u8],
    data: &mut [u8],
    address: u32,
    width: u32,
    pcd: bool,
    answers: &[u8],
    log: &mut [u32],
    carried: CarriedWrites,
) -> CallResult
    ensures { leaves result (lent_state tags.new valid.new lru.new cd nw (lent_ranges range_count bounds.now) ram.new parity.new «data».new) log.new
        ≡ read_call (lent_state tags.old valid.old lru.old cd nw (lent_ranges range_count bounds.now) ram.old parity.old «data».old) address width pcd answers.now log.old (carried_of carried) }
{
    carrying_calls::read_carrying_in_place(
        tags,
        valid,
        lru,
        cd,
        nw,
        Kept {
            count: range_count,
            bounds,
        },
        ram,
        parity,
        data,
        address,
        width,
        pcd,
        answers,
        log,
        carried,
    )
}

#[unsafe(no_mangle)]
pub extern "C" fn unit486_write_in_place<'a>(
    tags: &'a [u32; LINES],
    valid: &'a [bool; LINES],
    lru: &'a mut [u8; SETS],
    cd: bool,
    nw: bool,
    range_count: u32,
    bounds: &'a [u32; BOUNDS],
    ram: &mut [u8],
    parity: &mut [u8],
    data: &mut [u8],
    address: u32,
    width: u32,
    value: u64,
    answers: &[u8],
    log: &mut [u32],
) -> CallResult
    ensures { leaves result (lent_state tags.now valid.now lru.new cd nw (lent_ranges range_count bounds.now) ram.new parity.new «data».new) log.new
        ≡ write_call (lent_state tags.now valid.now lru.old cd nw (lent_ranges range_count bounds.now) ram.old parity.old «data».old) address width value answers.now log.old }
{
    write_calls::write_in_place(
        tags,
        valid,
        lru,
        cd,
        nw,
        Kept {
            count: range_count,
            bounds,
        },
        ram,
        parity,
        data,
        address,
        width,
        value,
        answers,
        log,
    )
}

#[unsafe(no_mangle)]
pub extern "C" fn unit486_external_write_in_place<'a>(
    tags: &'a [u32; LINES],
    valid: &'a mut [bool; LINES],
    lru: &'a [u8; SETS],
    nw: bool,
    range_count: u32,
    bounds: &'a [u32; BOUNDS],
    ram: &mut [u8],
    parity: &mut [u8],
    address: u32,
    bytes: &[u8],
) -> u32
    ensures { (cd : Bool) (array : List ℕ) →
        after (outcome (directory_of tags.now valid.new lru.now cd nw (lent_ranges range_count bounds.now)) result 0 0) (memory ram.new parity.new) array []
        ≡ external_call (state (directory_of tags.now valid.old lru.now cd nw (lent_ranges range_count bounds.now)) (memory ram.old parity.old) array) address bytes.now }
{
    answer_of(masters::external_write_in_place(
        tags,
        valid,
        lru,
        nw,
        Kept {
            count: range_count,
            bounds,
        },
        ram,
        parity,
        address,
        bytes,
    ))
}

#[unsafe(no_mangle)]
pub extern "C" fn unit486_snoop_in_place<'a>(
    tags: &'a [u32; LINES],
    valid: &'a mut [bool; LINES],
    lru: &'a [u8; SETS],
    nw: bool,
    address: u32,
) -> u32
    ensures { (cd : Bool) (ranges : Ranges) → outcome (directory_of tags.now valid.new lru.now cd nw ranges) result 0 0
        ≡ snoop_call (directory_of tags.now valid.old lru.now cd nw ranges) address }
{
    answer_of(directory::snoop_in_place(tags, valid, lru, nw, address))
}

#[unsafe(no_mangle)]
pub extern "C" fn unit486_flush_in_place(valid: &mut [bool; LINES], lru: &mut [u8; SETS])
    ensures { (tags : List ℕ) (cd nw : Bool) (ranges : Ranges) → directory_of tags valid.new lru.new cd nw ranges
        ≡ after_flush (directory_of tags valid.old lru.old cd nw ranges) }
{
    directory::flush_in_place(valid, lru)
}

#[unsafe(no_mangle)]
pub extern "C" fn unit486_control_in_place(
    cd: &mut bool,
    nw: &mut bool,
    new_cd: bool,
    new_nw: bool,
) -> u32
    ensures { (tags : List ℕ) (valid : List Bool) (lru : List ℕ) (ranges : Ranges) → outcome (directory_of tags valid lru cd.new nw.new ranges) result 0 0
        ≡ control_call (directory_of tags valid lru cd.old nw.old ranges) new_cd new_nw }
{
    answer_of(directory::control_in_place(cd, nw, new_cd, new_nw))
}

#[unsafe(no_mangle)]
pub extern "C" fn unit486_reset_in_place(
    tags: &mut [u32; LINES],
    valid: &mut [bool; LINES],
    lru: &mut [u8; SETS],
    cd: &mut bool,
    nw: &mut bool,
)
    ensures { (ranges : Ranges) → directory_of tags.new valid.new lru.new cd.new nw.new ranges
        ≡ after_reset (directory_of tags.old valid.old lru.old cd.old nw.old ranges) }
{
    directory::reset_in_place(tags, valid, lru, cd, nw)
}
