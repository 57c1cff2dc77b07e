// A line of bytes in fixed memory.
ghost use Rattle.std.specs.Prelude.{◌≡◌, ◌+◌, ◌<◌, ◌≤◌, [], ◌∷◌, ◌++◌, length, MatchOption};
ghost use Rattle.pool.specs.Meaning.{most_tokens};

use pool::MOST_TOKENS;

// There is room for every token that a pool may have.
const SLOTS: usize = MOST_TOKENS as usize;

// `len` bytes stand in line, from the slot `head` on; the first slot follows the last.
// It has no Model, since a refused call must leave the very same value, not only the same line.
#[derive(Drop)]
pub struct Ring {
    slots: [u8; SLOTS],
    head: usize,
    len: usize,
    ghost inside: { head < most_tokens },
    ghost few: { len ≤ most_tokens },
    ghost size: { length slots ≡ most_tokens },
}

impl Ring {
    ghost use Rattle.pipe.specs.Queue.{in_line};

    pub(crate) fn new() -> Ring
        ensures result { in_line result ≡ [] }
    {
        Ring {
            slots: [0; SLOTS],
            head: 0,
            len: 0,
        }
    }

    // Puts a byte at the end of the line.
    pub(crate) fn push(&mut self, b: u8)
        requires { length (in_line self.old) < most_tokens }
        ensures after { in_line self.new ≡ in_line self.old ++ b ∷ [] }
    {
        self.slots[(self.head + self.len) % SLOTS] = b;
        self.len += 1;
    }

    // Takes the first byte, or none from an empty line.
    pub(crate) fn pop(&mut self) -> Option<u8>
        ensures after { MatchOption result ((in_line self.old ≡ []) × (self.new ≡ self.old)) (λ b. in_line self.old ≡ b ∷ in_line self.new) }
    {
        if self.len == 0 {
            return None;
        }
        let first = self.slots[self.head];
        self.head = (self.head + 1) % SLOTS;
        self.len -= 1;
        Some(first)
    }
}
