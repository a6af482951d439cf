// Script lines: a letter and fields, a blank before each field. Whatever else a line has, it says something: a number ends at the
// first byte that is no digit, and the next field begins there.
ghost use Rattle.std.specs.Prelude.{◌≤◌, length};

// What the number of a field is kept as, modulo its size.
pub trait FromField: Drop {
    fn from_field(number: u64) -> Self;
}

impl FromField for u8 {
    fn from_field(number: u64) -> u8 {
        (number & 0xff) as u8
    }
}

impl FromField for u32 {
    fn from_field(number: u64) -> u32 {
        (number & 0xffff_ffff) as u32
    }
}

impl FromField for u64 {
    fn from_field(number: u64) -> u64 {
        number
    }
}

// A place or a count.
impl FromField for usize {
    fn from_field(number: u64) -> usize {
        (number & 0xffff_ffff) as usize
    }
}

// A mark, CD or NW. PCD stands where W and w have their value, and is compared whole.
impl FromField for bool {
    fn from_field(number: u64) -> bool {
        number & 0xffff_ffff == 1
    }
}

// The fields of a line that are left.
#[derive(Drop)]
pub struct Fields<'a> {
    rest: &'a [u8],
}

impl<'a> Fields<'a> {
    // A line's letter, 0 where there is none, and the fields, from its second byte on.
    pub fn of(line: &'a [u8]) -> (u8, Fields<'a>) {
        match line {
            [letter, rest @ ..] => (*letter, Fields { rest }),
            [] => (0, Fields { rest: line }),
        }
    }

    // The digits that come next, after one blank or none.
    fn next(&mut self) -> &'a [u8] {
        let rest = match self.rest {
            [b' ', after @ ..] => after,
            rest => rest,
        };
        let end = rest.iter().position(|byte| !byte.is_ascii_digit());
        let (field, after) = rest.split_at(end.unwrap_or(rest.len()));
        self.rest = after;
        field
    }

    // The number of the next field, 0 where there is none.
    pub fn number<T: FromField>(&mut self) -> T {
        T::from_field(value(self.next()))
    }

    // The numbers of the fields that are left, each after a blank: how many there are, as far as they have room.
    pub fn numbers<T: FromField>(&mut self, room: &mut [T]) -> usize
        ensures { result ≤ length room.new }
    {
        for (n, place) in room.iter_mut().enumerate() {
            let [b' ', ..] = self.rest else {
                return n;
            };
            *place = self.number();
        }
        room.len()
    }

    // A field of digits that are each a value: how many there are, as far as they have room.
    pub fn digits(&mut self, room: &mut [u8]) -> usize
        ensures { result ≤ length room.new }
    {
        let field = self.next();
        for (place, digit) in room.iter_mut().zip(field) {
            *place = digit & 15;
        }
        field.len().min(room.len())
    }
}

// The lower four bits of a digit's byte are its value.
fn value(field: &[u8]) -> u64 {
    field.iter().fold(0u64, |number, digit| {
        number.wrapping_mul(10).wrapping_add(u64::from(digit & 15))
    })
}
