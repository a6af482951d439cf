// The external writes that a read carries: which of them are due, what they store, whether they lie in a line.
#![tactic(auto)]

ghost use Rattle.std.specs.Prelude.{◌≡◌, cond, [], ℕ, ◌+◌, ◌*◌, ◌-◌, ◌/◌, ◌≤◌, length};
ghost use Rattle.ranges.specs.Ranges.{kept_ranges, ranges_of, read_only};
ghost use Rattle.memory.specs.Parity.{memory};
ghost use Rattle.carried.specs.Carried.{due, in_line, landed, later, taken};
ghost use Rattle.carried.specs.CarriedCode.{CarriedNeeds, carried_of, left_from, writes_from};

use memory::store_bytes;
use ranges::Kept;

// The most writes that a read carries.
pub const CARRIED_MOST: u32 = 4;

// Up to four writes: how many there are, and of each the number of the cycle before which it lands, its address, how many bytes it
// has, and those bytes, sixteen places for each write. A count above four stands for more writes, a length above sixteen for more
// bytes.
#[repr(C)]
#[derive(Clone, Copy)]
pub struct CarriedWrites {
    pub count: u32,
    pub cycles: [u32; 4],
    pub addresses: [u32; 4],
    pub lengths: [u32; 4],
    pub bytes: [u8; 64],
}

// The place after the writes that have landed once so many cycles are made, of those from a place on.
pub fn due_end(carried: CarriedWrites, from: usize, made: usize) -> usize
    requires { (from ≤ carried.count) × (carried.count ≤ 4) }
    ensures { (from ≤ result) × (result ≤ carried.count)
        × (writes_from carried from (result - from) ≡ due made (left_from carried from))
        × (left_from carried result ≡ later made (left_from carried from)) }
{
    for to in from..carried.count as usize {
        if made <= carried.cycles[to] as usize {
            return to;
        }
    }
    carried.count as usize
}

// The writes of some places land: their bytes go into RAM, with their parity.
pub fn land(carried: CarriedWrites, from: usize, to: usize, ram: &mut [u8], parity: &mut [u8])
    requires { (from ≤ to) × (to ≤ carried.count) × CarriedNeeds carried (length ram.old) (length parity.old) }
    ensures { memory ram.new parity.new ≡ landed [] (writes_from carried from (to - from)) (memory ram.old parity.old) }
{
    for k in from..to {
        let address = carried.addresses[k] as usize;
        let count = carried.lengths[k] as usize;
        store_bytes(&carried.bytes, 16 * k, ram, parity, address, count);
    }
}

// Whether a write of some places lies in a line.
pub fn any_in_line(carried: CarriedWrites, from: usize, to: usize, line: u32) -> bool
    requires { (from ≤ to) × (to ≤ carried.count) × (carried.count ≤ 4) }
    ensures { result ≡ in_line line (writes_from carried from (to - from)) }
{
    let mut found = false;
    for k in from..to {
        found |= carried.addresses[k] / 16 * 16 == line;
    }
    found
}

// How many bytes RAM takes of a write: none into a read-only line.
fn taken_length<'a>(ranges: Kept<'a>, address: u32, length: u32) -> u32
    ensures { result ≡ cond (read_only (ranges_of (kept_ranges ranges.entry)) address) 0 length }
{
    if ranges.read_only(address) { 0 } else { length }
}

// The writes with the bytes that RAM takes of them. A write into a read-only line stays, without bytes: snoops and dropped fills ask its
// address alone. Most directories keep no range.
pub fn taken_writes<'a>(carried: CarriedWrites, ranges: Kept<'a>) -> CarriedWrites
    requires { carried.count ≤ 4 }
    ensures { (result.count ≡ carried.count)
        × (carried_of result ≡ taken (ranges_of (kept_ranges ranges.entry)) (carried_of carried))
        × ((ram parity : ℕ) → CarriedNeeds carried ram parity → CarriedNeeds result ram parity) }
{
    if ranges.count == 0 {
        return carried;
    }
    let mut lengths = [0; 4];
    for k in 0..4 {
        lengths[k] = taken_length(ranges, carried.addresses[k], carried.lengths[k]);
    }
    CarriedWrites { lengths, ..carried }
}
