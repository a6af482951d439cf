// Line views for a host.
ghost use Rattle.std.specs.Prelude.{◌≡◌, length};
ghost use Rattle.std.proofs.lemmas.List.Edits.{sets};
ghost use Rattle.ranges.specs.Ranges.{lent_ranges};
ghost use Rattle.views.specs.View.{view_in, view_number_in};

use directory::{LINES, SETS};
use numbers::answer_of;
use ranges::{BOUNDS, Kept};
use ways::Arrays;

// The companion question of a view.
#[unsafe(no_mangle)]
pub extern "C" fn unit486_view_number_in_place<'a>(
    tags: &'a [u32; LINES],
    valid: &'a [bool; LINES],
    lru: &'a [u8; SETS],
    range_count: u32,
    bounds: &'a [u32; BOUNDS],
    ram: &'a [u8],
    data: &'a [u8],
    address: u32,
) -> u32
    ensures { result ≡ view_number_in tags.now valid.now lru.now (lent_ranges range_count bounds.now) (length ram.now) (length «data».now) address }
{
    let arrays = Arrays { tags, valid, lru };
    let ranges = Kept {
        count: range_count,
        bounds,
    };
    answer_of(views::view_number(arrays, ranges, ram, data, address))
}

// A line view copied out, since no exported function can return a part of what it is lent. Answers the view's number; where
// that is not 0 nothing is copied.
#[unsafe(no_mangle)]
pub extern "C" fn unit486_view_in_place<'a>(
    tags: &'a [u32; LINES],
    valid: &'a [bool; LINES],
    lru: &'a [u8; SETS],
    range_count: u32,
    bounds: &'a [u32; BOUNDS],
    ram: &'a [u8],
    data: &'a [u8],
    address: u32,
    shown: &mut [u8; 16],
) -> u32
    ensures { (result ≡ view_number_in tags.now valid.now lru.now (lent_ranges range_count bounds.now) (length ram.now) (length «data».now) address)
        × (shown.new ≡ sets shown.old 0 (view_in tags.now valid.now lru.now (lent_ranges range_count bounds.now) ram.now «data».now address)) }
{
    let arrays = Arrays { tags, valid, lru };
    let ranges = Kept {
        count: range_count,
        bounds,
    };
    if let Err(refusal) = views::view_number(arrays, ranges, ram, data, address) {
        return refusal.number();
    }
    let part = views::accepted_view(tags, valid, ram, data, address);
    words::copy_line(part, 0, shown, 0);
    0
}
