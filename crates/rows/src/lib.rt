// Numbers and rows as text, printed into a lent buffer.
#![tactic(auto)]

ghost use Rattle.std.specs.Prelude.{◌≡◌, List, ℕ, ◌+◌, ◌≤◌, ◌<◌, length, set, ◌^◌};
ghost use Rattle.std.proofs.lemmas.List.Edits.{sets};
ghost use Rattle.rows.specs.Decimal.{decimal};
ghost use Rattle.rows.specs.Row.{header, row_of};

// Puts a byte at a place of out, if out goes so far.
fn put(out: &mut [u8], at: usize, byte: u8)
    ensures { out.new ≡ set out.old at byte }
{
    if at < out.len() {
        out[at] = byte;
    }
}

// How many decimal digits a number below 10,000,000,000 has.
fn low_digit_count(n: u64) -> usize
    requires { n < 10000000000 }
    ensures { (result ≡ length (decimal n)) × (result ≤ 10) }
{
    if n < 10 {
        return 1;
    }
    if n < 100 {
        return 2;
    }
    if n < 1000 {
        return 3;
    }
    if n < 10000 {
        return 4;
    }
    if n < 100000 {
        return 5;
    }
    if n < 1000000 {
        return 6;
    }
    if n < 10000000 {
        return 7;
    }
    if n < 100000000 {
        return 8;
    }
    if n < 1000000000 {
        return 9;
    }
    10
}

// How many decimal digits a number has.
fn digit_count(n: u64) -> usize
    ensures { (result ≡ length (decimal n)) × (result ≤ 20) }
{
    if n < 10000000000 {
        return low_digit_count(n);
    }
    10 + low_digit_count(n / 10000000000)
}

// Puts the decimal text of n at a place of out, the last digit first and straight into it, which is faster than a text that is
// then copied, as far as out goes, and answers the place after it.
fn put_number(out: &mut [u8], at: usize, n: u64) -> usize
    requires { at ≤ length out.old + 63 }
    ensures value { (result ≡ at + length (decimal n)) × (out.new ≡ sets out.old at (decimal n)) }
    ensures upper_bound { result ≤ at + 20 }
{
    let end = at + digit_count(n);
    let mut rest = n;
    let mut k = end;
    while 10 <= rest {
        k -= 1;
        put(out, k, 48 + (rest % 10) as u8);
        rest = rest / 10;
    }
    put(out, at, 48 + rest as u8);
    end
}

// Puts a text at a place of out, as far as out goes, and answers the place after it. Byte after byte, so that no call moves it.
fn put_text(out: &mut [u8], at: usize, text: &[u8]) -> usize
    requires { at + length text.now < 2 ^ 64 }
    ensures { (result ≡ at + length text.now) × (out.new ≡ sets out.old at text.now) }
{
    for k in 0..text.len() {
        put(out, at + k, text[k]);
    }
    at + text.len()
}

// Puts the header line at the start of out, as far as out goes, and answers its length.
#[tactic(auto, unfolding(crate::specs::Row::header))]
pub fn put_header(out: &mut [u8]) -> usize
    ensures { (result ≡ length header) × (out.new ≡ sets out.old 0 header) }
{
    put_text(out, 0, b"event\tanswer\tvalue\tcycles\n")
}

// Puts a row at a place of out, as far as out goes, and answers the row's length.
pub fn put_row(out: &mut [u8], at: usize, event: u32, number: u32, value: u64, cycles: u32) -> usize
    ensures value { (result ≡ length (row_of event number value cycles)) × (out.new ≡ sets out.old at (row_of event number value cycles)) }
    ensures upper_bound { result ≤ 54 }
{
    // A text beyond the end is lost, wherever it begins.
    let from = at.min(out.len());
    let a = put_number(out, from, event as u64);
    put(out, a, b'\t');
    let b = put_number(out, a + 1, number as u64);
    put(out, b, b'\t');
    let c = put_number(out, b + 1, value);
    put(out, c, b'\t');
    let d = put_number(out, c + 1, cycles as u64);
    put(out, d, b'\n');
    d + 1 - from
}
