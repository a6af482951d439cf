// The sizing of a cycle.
ghost use Rattle.std.specs.Prelude.{◌≡◌, ℕ, ◌+◌, ◌^◌, ◌≤◌, ◌<◌};
ghost use Rattle.words.specs.Bytes.{lanes_mask};
ghost use Rattle.bus.specs.Bus.{run, size_of};

// The lanes that a cycle moves of those still wanted, by masks. lowest: the mask of the lowest wanted lane alone.
pub fn moved_lanes(answer: u8, lowest: u32, wanted: u32) -> u32
    ensures { (lane count : ℕ) → 0 < count → lane + count ≤ 4 → lowest ≡ 2 ^ lane → wanted ≡ lanes_mask lane count
        → result ≡ lanes_mask lane (size_of answer (run lane count)) }
{
    if answer / 2 % 2 == 1 {
        return lowest;
    }
    let lower_half = wanted % 4;
    if (answer / 4 % 2 == 1) & (lower_half != 0) {
        return lower_half;
    }
    wanted
}
