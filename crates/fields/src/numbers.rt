// Numbers as text.
ghost use Rattle.std.specs.Prelude.{◌≡◌, ◌-◌, ◌≤◌, true, false, length, IfSome, MatchOption};
ghost use Rattle.fields.specs.Number.{bit_of, is_digit, number_of, number_within, value_field_of};
ghost use Rattle.fields.specs.Fields.{leading_of};

use crate::fields::place_of;

fn digit_of(byte: u8) -> Option<u64>
    ensures { MatchOption result (is_digit byte ≡ false) (λ digit. (is_digit byte ≡ true) × (digit ≡ byte - 48)) }
{
    match byte {
        b'0'..=b'9' => Some(u64::from(byte - b'0')),
        _ => None,
    }
}

// A number of 1 to so many decimal digits up to a limit.
fn scan_within(field: &[u8], digits: usize, limit: u64) -> Option<u64>
    ensures value { result ≡ number_within digits limit field.now }
    ensures upper_bound { IfSome result (λ n. n ≤ limit) }
{
    if field.is_empty() || digits < field.len() {
        return None;
    }
    let mut value: u64 = 0;
    for byte in field {
        value = value.checked_mul(10)?.checked_add(digit_of(*byte)?)?;
    }
    (value <= limit).then_some(value)
}

// A number of 1 to 10 decimal digits up to 4,294,967,295.
pub fn scan_number(field: &[u8]) -> Option<u64>
    ensures value { result ≡ number_of field.now }
    ensures upper_bound { IfSome result (λ n. n ≤ 4294967295) }
{
    scan_within(field, 10, 4294967295)
}

// The value that a write's line gives: any 64-bit number, 1 to 20 decimal digits.
pub fn scan_value(field: &[u8]) -> Option<u64>
    ensures { result ≡ value_field_of field.now }
{
    scan_within(field, 20, 18446744073709551615)
}

// The number before the first tab of a text, and the place after that tab. A number has ten digits at most, so the tab is looked for
// in eleven bytes, however long the text is.
pub fn leading_number(text: &[u8]) -> Option<(u32, usize)>
    ensures value { result ≡ leading_of text.now }
    ensures within { IfSome result (λ r. r.1 ≤ length text.now) }
{
    let first = &text[..text.len().min(11)];
    let end = place_of(first, b'\t')?;
    let number = scan_number(&text[..end])?;
    Some((number as u32, end + 1))
}

// A field of one digit, 0 or 1.
#[tactic(auto, unfolding(crate::specs::Number::bit_of))]
pub fn scan_bit(field: &[u8]) -> Option<bool>
    ensures { result ≡ bit_of field.now }
{
    match field {
        b"0" => Some(false),
        b"1" => Some(true),
        _ => None,
    }
}
