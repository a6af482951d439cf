// The doublewords of an access, the lowest first.
ghost use Rattle.std.specs.Prelude.{◌≡◌, ◌+◌, ◌*◌, ◌≤◌, length};
ghost use Rattle.bus.specs.Groups.{group_size};
ghost use Rattle.doubleword.specs.Cursor.{NextNeeds, access_begin, access_next, group_at, wanted_of};

use crate::change::Wanted;
use bus::GROUP_SIZE;

// What is left between two doublewords: the address of the next wanted byte, the bytes left, their place in the operand, the
// group of answers that serves them, and the cycles made.
#[derive(Clone, Copy)]
pub struct AccessCursor {
    pub address: u32,
    pub left: usize,
    pub place: usize,
    pub group: usize,
    pub cycles: usize,
}

impl AccessCursor {
    // Before the first doubleword: so many bytes from an address on.
    pub fn begin(address: u32, width: u32) -> AccessCursor
        ensures { result ≡ access_begin address width }
    {
        AccessCursor {
            address,
            left: width as usize,
            group: 0,
            place: 0,
            cycles: 0,
        }
    }

    // The wanted bytes of the next doubleword.
    pub fn wanted(self) -> Wanted
        ensures { result ≡ wanted_of self }
    {
        let room = (4 - self.address % 4) as usize;
        Wanted {
            line: self.address / 16 * 16,
            from: (self.address % 16) as usize,
            count: self.left.min(room),
            place: self.place,
        }
    }

    // The group of answers that serves the next doubleword.
    pub fn group_of<'a>(self, answers: &'a [u8]) -> &'a [u8]
        requires { self.group * group_size + group_size ≤ length answers.now }
        ensures { (result.now ≡ group_at self answers.now) × (length result.now ≡ group_size) }
    {
        let from = self.group * GROUP_SIZE;
        &answers[from..from + GROUP_SIZE]
    }

    // What is left after a doubleword: so many bytes, and so many cycles.
    pub fn next(self, count: usize, cycles: usize) -> AccessCursor
        requires { NextNeeds self count cycles }
        ensures { result ≡ access_next self count cycles }
    {
        AccessCursor {
            address: self.address + count as u32,
            left: self.left - count,
            group: self.group + 1,
            place: self.place + count,
            cycles: self.cycles + cycles,
        }
    }
}
