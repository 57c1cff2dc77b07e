// The kinds of records: the letter of each, and how many bytes follow it.
ghost use Rattle.std.specs.Prelude.{◌≡◌, Some};
ghost use Rattle.std.specs.Option.{option_map};
ghost use Rattle.schedule.specs.Kinds.{letter_of, ReadsLetter};
ghost use Rattle.schedule.specs.Records.{kind_of};

#[derive(Clone, Copy, PartialEq, Eq, Debug)]
pub(crate) enum Kind {
    Open = b'O' as isize,
    StartInSlot = b'A' as isize,
    StartWithToken = b'T' as isize,
    Step = b'S' as isize,
    Kill = b'K' as isize,
    Halt = b'H' as isize,
    EndedWell = b'E' as isize,
    EndedFailed = b'F' as isize,
    PutBack = b'R' as isize,
    Finished = b'D' as isize,
}

// A byte that is the letter of no kind.
#[derive(Clone, Copy, PartialEq, Eq, Debug)]
pub(crate) struct UnknownLetter;

impl Kind {
    // The letter that stands for the kind in a schedule.
    pub(crate) fn letter(self) -> u8
        ensures { result ≡ letter_of self }
    {
        self as u8
    }

    // How many bytes follow the letter.
    pub(crate) fn follow(self) -> usize
        ensures { option_map (λ k. k.follow) (kind_of (letter_of self)) ≡ Some result }
    {
        match self {
            Kind::Halt => 0,
            Kind::Step | Kind::Kill | Kind::EndedWell | Kind::Finished => 1,
            Kind::StartInSlot | Kind::EndedFailed | Kind::PutBack => 2,
            Kind::Open | Kind::StartWithToken => 3,
        }
    }
}

impl TryFrom<u8> for Kind {
    type Error = UnknownLetter;

    ghost try_from_gives = { ReadsLetter };

    fn try_from(letter: u8) -> Result<Self, UnknownLetter> {
        match letter {
            b'O' => Ok(Kind::Open),
            b'A' => Ok(Kind::StartInSlot),
            b'T' => Ok(Kind::StartWithToken),
            b'S' => Ok(Kind::Step),
            b'K' => Ok(Kind::Kill),
            b'H' => Ok(Kind::Halt),
            b'E' => Ok(Kind::EndedWell),
            b'F' => Ok(Kind::EndedFailed),
            b'R' => Ok(Kind::PutBack),
            b'D' => Ok(Kind::Finished),
            _ => Err(UnknownLetter),
        }
    }
}
