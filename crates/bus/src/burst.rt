// The burst order.
ghost use Rattle.std.specs.Prelude.{◌≡◌};
ghost use Rattle.bus.specs.Bus.{burst_order};

// The offsets of a line's doublewords in the order of a burst, by the one that it starts at. As the data sheet prints them (002, table
// 3-9): First, Second, Third and Fourth Address.
#[tactic(auto, unfolding(crate::specs::Bus::burst_order))]
pub fn burst_order(start: usize) -> [usize; 4]
    ensures { result ≡ burst_order start }
{
    match start {
        0 => [0, 4, 8, 12], // 0 4 8 C
        4 => [4, 0, 12, 8], // 4 0 C 8
        8 => [8, 12, 0, 4], // 8 C 0 4
        _ => [12, 8, 4, 0], // C 8 4 0
    }
}
