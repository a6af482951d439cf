// Some lanes of a doubleword, taken in a register, with no branch on the lane.
ghost use Rattle.std.specs.Prelude.{◌≡◌, ℕ, ◌+◌, ◌*◌, ◌-◌, ◌^◌, ◌≤◌, ◌<◌};
ghost use Rattle.words.specs.Bytes.{lanes_mask, lanes_value, lanes_word};

// The number that so many bytes of a doubleword say, from a lane on.
pub fn lanes_value(word: u32, lane: usize, count: usize) -> u32
    requires { (0 < count) × (lane + count ≤ 4) }
    ensures { result ≡ lanes_value word lane count }
{
    let from = word as u64 >> (8 * lane);
    let end: u64 = 1 << (8 * count);
    (from % end) as u32
}

// The mask of so many lanes, from a lane on.
pub fn lanes_mask(lane: usize, count: usize) -> u32
    requires { lane + count ≤ 4 }
    ensures { (result ≡ lanes_mask lane count) × (result ≤ 15) }
{
    let end: u32 = 1 << count;
    (end - 1) << lane
}

// The bits of the lanes that each mask names: a table, so that there is no test.
const LANE_BITS: [u32; 16] = [
    0, 0xff, 0xff00, 0xffff, 0xff0000, 0xff00ff, 0xffff00, 0xffffff, 0xff000000, 0xff0000ff,
    0xff00ff00, 0xff00ffff, 0xffff0000, 0xffff00ff, 0xffffff00, 0xffffffff,
];

// The lanes of a doubleword that a mask names, in their places, the other lanes 0.
pub fn lanes_word(word: u32, mask: u32) -> u32
    ensures { (lane count : ℕ) → lane + count ≤ 4 → mask ≡ lanes_mask lane count → result ≡ lanes_word word lane count }
{
    word & LANE_BITS[(mask % 16) as usize]
}

// So many bytes of a number, from a place on, in the lanes of a doubleword from a lane on, the other lanes 0.
pub fn placed_lanes(value: u64, place: usize, lane: usize, count: usize) -> u32
    requires { (0 < count) × (place + count ≤ 8) × (lane + count ≤ 4) }
    ensures { result ≡ lanes_value value place count * 256 ^ lane }
{
    let word = (value >> (8 * place) << (8 * lane)) % 4294967296;
    lanes_word(word as u32, lanes_mask(lane, count))
}
