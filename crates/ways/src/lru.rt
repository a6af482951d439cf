// The LRU number of a set: its update by a use, and the way that it names.
ghost use Rattle.std.specs.Prelude.{◌≡◌, ◌<◌};
ghost use Rattle.ways.specs.Lru.{lru_after, lru_way};
ghost use Rattle.ways.specs.Address.{way_count};

// The LRU number after a use of a way.
#[tactic(auto, unfolding(crate::specs::Lru::lru_after))]
pub fn lru_after(lru: u8, way: usize) -> u8
    requires { way < way_count }
    ensures { result ≡ lru_after lru way }
{
    let kept = if way < 2 {
        4 * (lru / 4 % 2)
    } else {
        2 * (lru / 2 % 2)
    };
    let made = match way {
        0 => 3,
        1 => 1,
        2 => 4,
        _ => 0,
    };
    made + kept
}

// The way that an LRU number names as victim.
pub fn lru_way(lru: u8) -> usize
    ensures { result ≡ lru_way lru }
{
    if lru % 2 == 0 {
        (lru / 2 % 2) as usize
    } else {
        2 + (lru / 4 % 2) as usize
    }
}
