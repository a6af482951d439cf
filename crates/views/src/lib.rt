// Line views: the sixteen bytes around an address, as a part of the data array or of RAM, and the number of a view.
// The arrays of the directory are lent, so a view copies nothing.
#![tactic(auto)]

ghost use Rattle.std.specs.Prelude.{◌≡◌, ◌+◌, ◌≤◌, length};
ghost use Rattle.numbers.specs.Numbers.{answer_of};
ghost use Rattle.ranges.specs.Ranges.{kept_ranges};
ghost use Rattle.words.specs.Bytes.{bytes_at};
ghost use Rattle.ways.specs.Ways.{lookup_in};
ghost use Rattle.refusal.specs.Refusal.{view_input_number};
ghost use Rattle.views.specs.View.{shown, shown_at, view_at, view_in, view_number_in};

use numbers::Refusal;
use ranges::Kept;
use refusal::{ranges_number, view_input_number};
use ways::{Arrays, LINES, data_offset, lookup, set_of};

// The companion question: whether the view is accepted, or what turns it away.
#[tactic(auto, using(refusal::proofs::Order::first_met, refusal::proofs::Order::next_met), unfolding(crate::specs::View::view_number_in))]
pub fn view_number<'a>(
    arrays: Arrays<'a>,
    ranges: Kept<'a>,
    ram: &'a [u8],
    data: &'a [u8],
    address: u32,
) -> Result<(), Refusal>
    ensures { answer_of result ≡ view_number_in arrays.entry.tags.now arrays.entry.valid.now arrays.entry.lru.now (kept_ranges ranges.entry) (length ram.now) (length «data».now) address }
{
    view_input_number(ram.len(), data.len(), address)?;
    ranges_number(ram.len(), ranges)?;
    arrays.state_number(set_of(address))
}

// The sixteen bytes around an address, or the empty part at RAM's start where the view is turned away.
pub fn view<'a>(
    arrays: Arrays<'a>,
    ranges: Kept<'a>,
    ram: &'a [u8],
    data: &'a [u8],
    address: u32,
) -> &'a [u8]
    ensures { (result.now ≡ view_in arrays.entry.tags.now arrays.entry.valid.now arrays.entry.lru.now (kept_ranges ranges.entry) ram.now «data».now address)
        × (result.ref_ptr ≡ view_at arrays.entry.tags.now arrays.entry.valid.now arrays.entry.lru.now (kept_ranges ranges.entry) ram.now «data».now ram.entry.ref_ptr «data».entry.ref_ptr address) }
{
    match view_number(arrays, ranges, ram, data, address) {
        Ok(()) => accepted_view(arrays.tags, arrays.valid, ram, data, address),
        Err(_) => &ram[0..0],
    }
}

// The same where the view is known to be accepted, so that a caller who has asked does not ask again.
pub fn accepted_view<'a>(
    tags: &'a [u32; LINES],
    valid: &'a [bool; LINES],
    ram: &'a [u8],
    data: &'a [u8],
    address: u32,
) -> &'a [u8]
    requires { view_input_number (length ram.now) (length «data».now) address ≡ 0 }
    ensures { (result.now ≡ shown (lookup_in tags.now valid.now address) ram.now «data».now address)
        × (result.ref_ptr ≡ shown_at (lookup_in tags.now valid.now address) ram.entry.ref_ptr «data».entry.ref_ptr address) }
{
    match lookup(tags, valid, address) {
        Some(way) => sixteen(data, data_offset(address, way)),
        None => sixteen(ram, (address / 16 * 16) as usize),
    }
}

// Sixteen bytes, from a place on.
fn sixteen<'a>(bytes: &'a [u8], from: usize) -> &'a [u8]
    requires { from + 16 ≤ length bytes.now }
    ensures { (result.now ≡ bytes_at bytes.now from 16) × (result.ref_ptr ≡ (bytes.entry.ref_ptr.0, bytes.entry.ref_ptr.1 + from)) }
{
    let to = from + 16;
    &bytes[from..to]
}
