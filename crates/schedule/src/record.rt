// A record by value: what happened, with its fields. A field is any byte, since a reader hands out whatever stands in a
// schedule: so `keep`, `cause` and `failed` are bytes, and no `bool` or `Cause`.
ghost use Rattle.std.specs.Prelude.{◌≡◌};
ghost use Rattle.schedule.specs.Kinds.{letter_of, HasLetter};
ghost use Rattle.schedule.specs.Records.{size};

use crate::kind::Kind;

#[derive(Clone, Copy, PartialEq, Eq, Debug)]
pub enum Record {
    Open { limit: u8, keep: u8, nodes: u8 },
    StartInSlot { make: u8, child: u8 },
    StartWithToken { make: u8, child: u8, token: u8 },
    Step { job: u8 },
    Kill { job: u8 },
    Halt,
    EndedWell { node: u8 },
    EndedFailed { node: u8, cause: u8 },
    PutBack { make: u8, token: u8 },
    Finished { failed: u8 },
}

impl Record {
    // The record's kind.
    pub(crate) fn kind(self) -> Kind
        ensures letter { HasLetter self (letter_of result) }
    {
        match self {
            Record::Open { .. } => Kind::Open,
            Record::StartInSlot { .. } => Kind::StartInSlot,
            Record::StartWithToken { .. } => Kind::StartWithToken,
            Record::Step { .. } => Kind::Step,
            Record::Kill { .. } => Kind::Kill,
            Record::Halt => Kind::Halt,
            Record::EndedWell { .. } => Kind::EndedWell,
            Record::EndedFailed { .. } => Kind::EndedFailed,
            Record::PutBack { .. } => Kind::PutBack,
            Record::Finished { .. } => Kind::Finished,
        }
    }

    // How many bytes the record takes in a schedule.
    pub fn size(self) -> usize
        ensures result { result ≡ size self }
    {
        1 + self.kind().follow()
    }
}
