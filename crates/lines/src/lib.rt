// The event of a line.
#![tactic(auto)]

ghost use Rattle.std.specs.Prelude.{◌≡◌, ℕ, List, [], Option};
ghost use Rattle.std.specs.Option.{option_and_then};
ghost use Rattle.fields.specs.Fields.{fields_of};
ghost use Rattle.lines.specs.declared.Event.{Event};
ghost use Rattle.lines.specs.Scan.{access_of, control_of, external_of, form_of, of_one, of_three, of_two, read_of, scanned, snoop_of, write_of};

use fields::{is_pairs, leading_number, place_of, scan_bit, scan_number, scan_value};

// The bytes of the longest line that asks for anything.
pub const LONGEST_LINE: usize = 80;

// What a line asks for. An external write names the place in the line where its pairs begin.
#[derive(Clone, Copy)]
pub enum Event {
    Read(u32, u32, bool),
    Write(u32, u32, u64),
    External(u32, usize),
    Snoop(u32),
    Flush,
    Control(bool, bool),
    Reset,
}

// The event of a line of at most LONGEST_LINE bytes; any other line is malformed.
#[tactic(auto, using(crate::proofs::Forms::scan_long, crate::proofs::Forms::scan_empty, crate::proofs::Forms::scan_alone, crate::proofs::Forms::scan_no_letter, crate::proofs::Forms::scan_fields))]
pub fn scan(line: &[u8]) -> Option<Event>
    ensures { result ≡ scanned line.now }
{
    if LONGEST_LINE < line.len() {
        return None;
    }
    match line {
        [letter] => alone(*letter),
        [letter, b'\t', fields @ ..] => with_fields(*letter, fields),
        _ => None,
    }
}

// A letter that is all of its line.
#[tactic(auto, using(crate::proofs::Forms::alone_other), unfolding(crate::specs::Scan::form_of, crate::specs::Scan::of_none))]
fn alone(letter: u8) -> Option<Event>
    ensures { result ≡ form_of letter [] }
{
    match letter {
        b'F' => Some(Event::Flush),
        b'Z' => Some(Event::Reset),
        _ => None,
    }
}

// A letter and what stands after its tab.
#[tactic(auto, using(crate::proofs::Forms::fields_other), unfolding(crate::specs::Scan::form_of))]
fn with_fields(letter: u8, fields: &[u8]) -> Option<Event>
    ensures { result ≡ form_of letter (fields_of fields.now) }
{
    match letter {
        b'R' => read_of(fields),
        b'W' => write_of(fields),
        b'X' => external_of(fields),
        b'S' => snoop_of(fields),
        b'C' => control_of(fields),
        _ => None,
    }
}

// The address and the width of a read or a write, and what stands after their tabs.
#[tactic(auto, using(crate::proofs::Forms::access_unled, crate::proofs::Forms::access_half, crate::proofs::Forms::access_led))]
fn access_of(fields: &[u8]) -> Option<(u32, u32, &[u8])>
    ensures { (last : ℕ → ℕ → List ℕ → Option Event) → of_three (access_of last) (fields_of fields.now)
        ≡ option_and_then (λ r. of_one (last r.0 r.1) (fields_of r.2.now)) result }
{
    let (address, next) = leading_number(fields)?;
    let rest = &fields[next..];
    let (width, last) = leading_number(rest)?;
    Some((address, width, &rest[last..]))
}

#[tactic(auto, using(crate::proofs::Forms::last_pcd), unfolding(crate::specs::Scan::read_of, crate::specs::Scan::with))]
fn read_of(fields: &[u8]) -> Option<Event>
    ensures { result ≡ of_three read_of (fields_of fields.now) }
{
    let (address, width, pcd) = access_of(fields)?;
    Some(Event::Read(address, width, scan_bit(pcd)?))
}

#[tactic(auto, using(crate::proofs::Forms::last_value), unfolding(crate::specs::Scan::write_of, crate::specs::Scan::with))]
fn write_of(fields: &[u8]) -> Option<Event>
    ensures { result ≡ of_three write_of (fields_of fields.now) }
{
    let (address, width, value) = access_of(fields)?;
    Some(Event::Write(address, width, scan_value(value)?))
}

#[tactic(auto, using(crate::proofs::Forms::external_unled, crate::proofs::Forms::external_led))]
fn external_of(fields: &[u8]) -> Option<Event>
    ensures { result ≡ of_two external_of (fields_of fields.now) }
{
    let (address, next) = leading_number(fields)?;
    is_pairs(&fields[next..]).then_some(Event::External(address, next + 2))
}

#[tactic(auto, using(crate::proofs::Forms::snoop_last), unfolding(crate::specs::Scan::with))]
fn snoop_of(fields: &[u8]) -> Option<Event>
    ensures { result ≡ of_one snoop_of (fields_of fields.now) }
{
    let address = scan_number(fields)?;
    Some(Event::Snoop(address as u32))
}

#[tactic(auto, using(crate::proofs::Forms::two_end))]
fn control_of(fields: &[u8]) -> Option<Event>
    ensures { result ≡ of_two control_of (fields_of fields.now) }
{
    let end = place_of(fields, b'\t')?;
    let cd = scan_bit(&fields[..end])?;
    let nw = scan_bit(&fields[end + 1..])?;
    Some(Event::Control(cd, nw))
}
