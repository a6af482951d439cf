// What both forms of an external write ask for and store.
ghost use Rattle.std.specs.Prelude.{◌≡◌, ◌+◌, ◌*◌, ◌%◌, ◌≤◌, length};
ghost use Rattle.numbers.specs.Numbers.{answer_of};
ghost use Rattle.ranges.specs.Ranges.{kept_ranges, ranges_of};
ghost use Rattle.memory.specs.Parity.{memory, written};
ghost use Rattle.refusal.specs.Refusal.{external_number, kept_number, memory_number, or_else, states_number_in};

use memory::store_bytes;
use numbers::Refusal;
use ranges::Kept;
use refusal::{external_number, memory_number, own_number};
use ways::Arrays;

// Its number, by the lengths of RAM and parity array.
#[tactic(auto, using(refusal::proofs::Order::first_met, refusal::proofs::Order::next_met))]
pub fn external_write_number<'a, 'b>(
    arrays: Arrays<'a>,
    ranges: Kept<'b>,
    ram: usize,
    parity: usize,
    address: u32,
    count: usize,
) -> Result<(), Refusal>
    ensures { answer_of result ≡ or_else (memory_number ram parity) (or_else (external_number ram address count)
        (or_else (kept_number ram (kept_ranges ranges.entry)) (states_number_in arrays.entry.tags.now arrays.entry.valid.now arrays.entry.lru.now address count))) }
{
    memory_number(ram, parity)?;
    external_number(ram, address, count)?;
    own_number(arrays, ranges, ram, address, count as u32)
}

// Bytes of one line go into RAM with their parity, unless the line is read-only.
pub fn put_bytes<'a>(
    ranges: Kept<'a>,
    ram: &mut [u8],
    parity: &mut [u8],
    address: u32,
    bytes: &[u8],
)
    requires { (address % 16 + length bytes.now ≤ 16) × (address + length bytes.now ≤ length ram.old) × (address + length bytes.now ≤ 4 * length parity.old) }
    ensures { memory ram.new parity.new ≡ written (ranges_of (kept_ranges ranges.entry)) (memory ram.old parity.old) address bytes.now }
{
    if ranges.read_only(address) {
        return;
    }
    store_bytes(bytes, 0, ram, parity, address as usize, bytes.len());
}
