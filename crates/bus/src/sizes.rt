// The widths of an access, and the sizes of its answers and of its log.
ghost use Rattle.std.specs.Prelude.{◌≡◌};
ghost use Rattle.bus.specs.Groups.{bad_width};

// The answers that serve a doubleword.
pub const GROUP_SIZE: usize = 16;

// The groups of answers: one for each doubleword that an access can touch.
pub const GROUPS: usize = 3;

// The board's answers for an access.
pub const ANSWERS: usize = GROUP_SIZE * GROUPS;

// The highest answer that an access takes.
pub const HIGHEST_ANSWER: u8 = 7;

// The words of a log that an access needs: a record for each answer.
pub const LOG_WORDS: usize = 3 * ANSWERS;

// Whether so many bytes are no width of an access.
pub fn bad_width(width: u32) -> bool
    ensures { result ≡ bad_width width }
{
    (width != 1) & (width != 2) & (width != 4) & (width != 8)
}
