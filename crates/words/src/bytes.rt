// Bytes moved between buffers, and as numbers.
ghost use Rattle.std.specs.Prelude.{◌≡◌, ◌+◌, ◌*◌, ◌/◌, ◌%◌, ◌≤◌, ◌<◌, length};
ghost use Rattle.std.proofs.lemmas.List.Edits.{sets};
ghost use Rattle.words.specs.Bytes.{bytes_at, bytes_of, lanes_value, lanes_word, value_of, word_in};

use crate::lanes::{lanes_mask, lanes_value, lanes_word};

// So many bytes of src from a place on, put into dst. A whole doubleword is moved as one word.
pub fn copy_bytes(src: &[u8], s: usize, dst: &mut [u8], d: usize, count: usize)
    requires { (s + count ≤ length src.now) × (d + count ≤ length dst.old) }
    ensures { dst.new ≡ sets dst.old d (bytes_at src.now s count) }
{
    if count == 4 {
        copy_array::<4>(src, s, dst, d);
    } else {
        copy_each(src, s, dst, d, count);
    }
}

// Byte after byte, so that a few bytes are moved without a call.
fn copy_each(src: &[u8], s: usize, dst: &mut [u8], d: usize, count: usize)
    requires { (s + count ≤ length src.now) × (d + count ≤ length dst.old) }
    ensures { dst.new ≡ sets dst.old d (bytes_at src.now s count) }
{
    for k in 0..count {
        dst[d + k] = src[s + k];
    }
}

// Sixteen bytes of src from a place on, put into dst.
pub fn copy_line(src: &[u8], s: usize, dst: &mut [u8], d: usize)
    requires { (s + 16 ≤ length src.now) × (d + 16 ≤ length dst.old) }
    ensures { dst.new ≡ sets dst.old d (bytes_at src.now s 16) }
{
    copy_array::<16>(src, s, dst, d);
}

// All are loaded before one is stored, so that they can move as one word.
fn copy_array<const N: usize>(src: &[u8], s: usize, dst: &mut [u8], d: usize)
    requires { (s + N ≤ length src.now) × (d + N ≤ length dst.old) }
    ensures { dst.new ≡ sets dst.old d (bytes_at src.now s N) }
{
    let bytes: [u8; N] = src[s..s + N].try_into().unwrap();
    dst[d..d + N].copy_from_slice(&bytes);
}

// The doubleword of four lanes.
pub fn word_of(lanes: [u8; 4]) -> u32
    ensures { result ≡ value_of lanes }
{
    u32::from_le_bytes(lanes)
}

// The doubleword of four bytes.
pub fn word_at(src: &[u8], at: usize) -> u32
    requires { at + 4 ≤ length src.now }
    ensures { result ≡ word_in 0 (bytes_at src.now at 4) }
{
    word_of(src[at..at + 4].try_into().unwrap())
}

// The number of some bytes of one aligned doubleword, the lowest first. The whole doubleword is loaded.
pub fn value_at(src: &[u8], at: usize, count: usize) -> u32
    requires { (0 < count) × (at % 4 + count ≤ 4) × (at / 4 * 4 + 4 ≤ length src.now) }
    ensures { result ≡ value_of (bytes_at src.now at count) }
{
    lanes_value(word_at(src, at / 4 * 4), at % 4, count)
}

// The four bytes of a number, the lowest first.
pub fn bytes_of(value: u32) -> [u8; 4]
    ensures { result ≡ bytes_of 4 value }
{
    value.to_le_bytes()
}

// The four bytes of a number put into dst.
fn put_word(dst: &mut [u8], at: usize, value: u32)
    requires { at + 4 ≤ length dst.old }
    ensures { dst.new ≡ sets dst.old at (bytes_of 4 value) }
{
    dst[at..at + 4].copy_from_slice(&bytes_of(value));
}

// So many lanes of a doubleword put over those of four bytes of dst, from a lane on. The other lanes of the doubleword are 0.
pub fn put_lanes(dst: &mut [u8], base: usize, lane: usize, count: usize, word: u32)
    requires { (0 < count) × (lane + count ≤ 4) × (base + 4 ≤ length dst.old) × (word ≡ lanes_word word lane count) }
    ensures { dst.new ≡ sets dst.old (base + lane) (bytes_of count (lanes_value word lane count)) }
{
    let mask = lanes_mask(lane, count);
    if mask == 15 {
        put_word(dst, base, word);
    } else {
        let old = word_at(dst, base);
        put_word(dst, base, old - lanes_word(old, mask) + word);
    }
}
