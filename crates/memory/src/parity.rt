// RAM and its parity array.
ghost use Rattle.std.specs.Prelude.{◌≡◌, ◌+◌, ◌*◌, ◌/◌, ◌%◌, ◌^◌, ◌≤◌, ◌<◌, length};
ghost use Rattle.words.specs.Bytes.{bytes_at, bytes_of, lanes_value, lanes_word};
ghost use Rattle.memory.specs.Parity.{dp_of, dps_of, memory, put, stored};

use words::{bytes_of, copy_bytes, lanes_mask, put_lanes};

// The DP bit of a byte.
fn dp_bit(b: u8) -> u8
    ensures { (result ≡ dp_of b) × (result < 2) }
{
    (b.count_ones() % 2) as u8
}

// The DP bits of four bytes, as a parity byte has them. Summed by doubling: a compiler makes a slow vector count of
// a flat sum.
pub fn dp_bits(lowest: u8, second: u8, third: u8, highest: u8) -> u8
    ensures { result ≡ dp_of lowest + 2 * dp_of second + 4 * dp_of third + 8 * dp_of highest }
{
    dp_bit(lowest) + 2 * (dp_bit(second) + 2 * (dp_bit(third) + 2 * dp_bit(highest)))
}

// A byte put into RAM, with its parity.
pub fn put_byte(ram: &mut [u8], parity: &mut [u8], a: usize, b: u8)
    requires { (a < length ram.old) × (a < 4 * length parity.old) }
    ensures { memory ram.new parity.new ≡ put (memory ram.old parity.old) a b }
{
    ram[a] = b;
    let lane = a % 4;
    parity[a / 4] = with_bits(parity[a / 4], lane, 1, dp_bit(b) << lane);
}

// So many bytes of src from a place on, put into RAM with their parity. A whole doubleword is stored at once, and a whole line
// without a loop.
pub fn store_bytes(src: &[u8], s: usize, ram: &mut [u8], parity: &mut [u8], a: usize, count: usize)
    requires { (s + count ≤ length src.now) × (a + count ≤ length ram.old) × (a + count ≤ 4 * length parity.old) }
    ensures { memory ram.new parity.new ≡ stored (memory ram.old parity.old) a (bytes_at src.now s count) }
{
    if count == 16 && a % 4 == 0 {
        store_line(src, s, ram, parity, a);
    } else {
        store_each(src, s, ram, parity, a, count);
    }
}

fn store_line(src: &[u8], s: usize, ram: &mut [u8], parity: &mut [u8], a: usize)
    requires { (a % 4 ≡ 0) × (s + 16 ≤ length src.now) × (a + 16 ≤ length ram.old) × (a + 16 ≤ 4 * length parity.old) }
    ensures { memory ram.new parity.new ≡ stored (memory ram.old parity.old) a (bytes_at src.now s 16) }
{
    store_doubleword(src, s, ram, parity, a);
    store_doubleword(src, s + 4, ram, parity, a + 4);
    store_doubleword(src, s + 8, ram, parity, a + 8);
    store_doubleword(src, s + 12, ram, parity, a + 12);
}

fn store_doubleword(src: &[u8], s: usize, ram: &mut [u8], parity: &mut [u8], a: usize)
    requires { (a % 4 ≡ 0) × (s + 4 ≤ length src.now) × (a + 4 ≤ length ram.old) × (a + 4 ≤ 4 * length parity.old) }
    ensures { memory ram.new parity.new ≡ stored (memory ram.old parity.old) a (bytes_at src.now s 4) }
{
    let bits = dp_bits(src[s], src[s + 1], src[s + 2], src[s + 3]);
    copy_bytes(src, s, ram, a, 4);
    parity[a / 4] = bits;
}

// A whole doubleword where the bytes that are left begin with one, or one byte. Answers how many.
fn store_next(
    src: &[u8],
    s: usize,
    ram: &mut [u8],
    parity: &mut [u8],
    a: usize,
    left: usize,
) -> usize
    requires { (0 < left) × (s + left ≤ length src.now) × (a + left ≤ length ram.old) × (a + left ≤ 4 * length parity.old) }
    ensures progress { (0 < result) × (result ≤ left) }
    ensures bytes_stored { memory ram.new parity.new ≡ stored (memory ram.old parity.old) a (bytes_at src.now s result) }
{
    if 4 <= left && a % 4 == 0 {
        store_doubleword(src, s, ram, parity, a);
        4
    } else {
        put_byte(ram, parity, a, src[s]);
        1
    }
}

fn store_each(src: &[u8], s: usize, ram: &mut [u8], parity: &mut [u8], a: usize, count: usize)
    requires { (s + count ≤ length src.now) × (a + count ≤ length ram.old) × (a + count ≤ 4 * length parity.old) }
    ensures { memory ram.new parity.new ≡ stored (memory ram.old parity.old) a (bytes_at src.now s count) }
{
    let mut k: usize = 0;
    while k < count {
        let n = store_next(src, s + k, ram, parity, a + k, count - k);
        k += n;
    }
}

// The DP bits of the four bytes of a number, as a parity byte has them.
fn value_bits(value: u32) -> u8
    ensures { result ≡ dps_of (bytes_of 4 value) }
{
    let b = bytes_of(value);
    dp_bits(b[0], b[1], b[2], b[3])
}

// A parity byte with the bits of so many lanes replaced by bits that stand in place.
fn with_bits(p: u8, lane: usize, count: usize, bits: u8) -> u8
    requires { (0 < count) × (lane + count ≤ 4) × (bits < 16) }
    ensures { result ≡ p % 2 ^ lane + bits + p % 16 / 2 ^ (lane + count) * 2 ^ (lane + count) }
{
    let mask = lanes_mask(lane, count) as u8;
    (p & (15 - mask)) + bits
}

// So many lanes of a doubleword, from a lane on, put into RAM at an address of four bytes, with their parity. The other lanes of the
// doubleword are 0, and so are their bits.
pub fn store_lanes(
    ram: &mut [u8],
    parity: &mut [u8],
    base: usize,
    lane: usize,
    count: usize,
    word: u32,
)
    requires { (0 < count) × (lane + count ≤ 4) × (base % 4 ≡ 0) × (base + 4 ≤ length ram.old) × (base + 4 ≤ 4 * length parity.old) × (word ≡ lanes_word word lane count) }
    ensures { memory ram.new parity.new ≡ stored (memory ram.old parity.old) (base + lane) (bytes_of count (lanes_value word lane count)) }
{
    let bits = value_bits(word);
    put_lanes(ram, base, lane, count, word);
    parity[base / 4] = with_bits(parity[base / 4], lane, count, bits);
}
