// What the calls of this crate refuse with, each refusal by its number.
ghost use Rattle.std.specs.Prelude.{◌≡◌};
ghost use Rattle.schedule.specs.Refusals.{read_number, read_place, buffer_number};

// No record stands at a place: its first byte is no kind, or its body is cut short. A case that holds its place can be given no
// number of its own, so the numbers stand apart.
#[derive(Clone, Copy, PartialEq, Eq, Debug)]
pub enum ReadRefusal {
    UnknownKind { place: usize },
    CutShort { place: usize },
}

// A buffer is shorter than what is to be written needs.
#[derive(Clone, Copy, PartialEq, Eq, Debug)]
pub struct ShortBuffer;

impl ReadRefusal {
    pub fn number(self) -> u8
        ensures result { result ≡ read_number self }
    {
        match self {
            ReadRefusal::UnknownKind { .. } => 19,
            ReadRefusal::CutShort { .. } => 20,
        }
    }

    // The place of the kind byte that the refusal is about.
    pub fn place(self) -> usize
        ensures result { result ≡ read_place self }
    {
        match self {
            ReadRefusal::UnknownKind { place } | ReadRefusal::CutShort { place } => place,
        }
    }
}

impl ShortBuffer {
    pub fn number(self) -> u8
        ensures result { result ≡ buffer_number self }
    {
        15
    }
}
