// A record as the reader hands it out: by kind, with its body as a part of the schedule.
ghost use Rattle.std.specs.Prelude.{◌≡◌, ◌+◌, ◌∷◌, length, Some, Ok};
ghost use Rattle.schedule.specs.Reading.{body_length, record_of};
ghost use Rattle.schedule.specs.Records.{size};
ghost use Rattle.schedule.specs.Views.{span, viewed};

use crate::kind::Kind;
use crate::record::Record;

#[derive(Clone, Copy, Debug)]
pub enum RecordView<'a> {
    Open(&'a [u8; 3]),
    StartInSlot(&'a [u8; 2]),
    StartWithToken(&'a [u8; 3]),
    Step(&'a [u8; 1]),
    Kill(&'a [u8; 1]),
    Halt(&'a [u8; 0]),
    EndedWell(&'a [u8; 1]),
    EndedFailed(&'a [u8; 2]),
    PutBack(&'a [u8; 2]),
    Finished(&'a [u8; 1]),
}

// A record and the place of its kind byte in the schedule.
#[derive(Clone, Copy, Debug)]
pub struct Placed<'a> {
    pub place: usize,
    pub record: RecordView<'a>,
}

impl RecordView<'_> {
    // The record by value.
    pub fn record(&self) -> Record
        ensures result { result ≡ viewed self.now }
    {
        Record::from(*self)
    }
}

impl From<RecordView<'_>> for Record {
    ghost from_gives = { λ view result. result ≡ viewed view };

    fn from(view: RecordView<'_>) -> Record {
        match view {
            RecordView::Open(&[limit, keep, nodes]) => Record::Open { limit, keep, nodes },
            RecordView::StartInSlot(&[make, child]) => Record::StartInSlot { make, child },
            RecordView::StartWithToken(&[make, child, token]) => {
                Record::StartWithToken { make, child, token }
            }
            RecordView::Step(&[job]) => Record::Step { job },
            RecordView::Kill(&[job]) => Record::Kill { job },
            RecordView::Halt([]) => Record::Halt,
            RecordView::EndedWell(&[node]) => Record::EndedWell { node },
            RecordView::EndedFailed(&[node, cause]) => Record::EndedFailed { node, cause },
            RecordView::PutBack(&[make, token]) => Record::PutBack { make, token },
            RecordView::Finished(&[failed]) => Record::Finished { failed },
        }
    }
}

// The view of a kind byte, which `body_length` has read, and its whole body.
pub(crate) fn view<'a>(kind: u8, body: &'a [u8]) -> RecordView<'a>
    requires { body_length kind (length body.now) 0 ≡ Ok (length body.now) }
    ensures records { span result ≡ kind ∷ body.now }
    ensures result { Some (viewed result) ≡ record_of kind body.now }
    ensures size { size (viewed result) ≡ 1 + length body.now }
{
    match Kind::try_from(kind).unwrap() {
        Kind::Open => RecordView::Open(body.try_into().unwrap()),
        Kind::StartInSlot => RecordView::StartInSlot(body.try_into().unwrap()),
        Kind::StartWithToken => RecordView::StartWithToken(body.try_into().unwrap()),
        Kind::Step => RecordView::Step(body.try_into().unwrap()),
        Kind::Kill => RecordView::Kill(body.try_into().unwrap()),
        Kind::Halt => RecordView::Halt(body.try_into().unwrap()),
        Kind::EndedWell => RecordView::EndedWell(body.try_into().unwrap()),
        Kind::EndedFailed => RecordView::EndedFailed(body.try_into().unwrap()),
        Kind::PutBack => RecordView::PutBack(body.try_into().unwrap()),
        Kind::Finished => RecordView::Finished(body.try_into().unwrap()),
    }
}
