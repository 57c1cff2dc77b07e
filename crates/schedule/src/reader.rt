// The reader: it stands over a schedule, and hands out one record after the other as parts of it.
ghost use Rattle.std.specs.Prelude.{◌≡◌, ◌++◌};
ghost use Rattle.schedule.specs.Reading.{found, behind, begun, division, Faithful};
ghost use Rattle.schedule.specs.Views.{shown, ahead, left_of, handed, span};

use crate::length::body_length;
use crate::refusal::ReadRefusal;
use crate::view::{Placed, view};

#[derive(Debug, Drop)]
pub struct ScheduleReader<'a> {
    schedule: &'a [u8],
    place: usize,
}

impl<'a> ScheduleReader<'a> {
    #[tactic(auto, using(crate::proofs::RoundTrip::faithful))]
    pub fn new(schedule: &'a [u8]) -> Self
        ensures result { result ≡ record { schedule = schedule.entry; place = 0 } }
        ensures records { left_of result ≡ division schedule.now 0 }
        ensures law { Faithful schedule.now (left_of result) }
    {
        ScheduleReader { schedule, place: 0 }
    }

    // The next record with its place, none at the end, or a refusal. It is no `Iterator`: a reader that has refused
    // refuses again, so that a loop over its items would not end.
    pub fn next(&mut self) -> Result<Option<Placed<'a>>, ReadRefusal>
        ensures result { shown result ≡ found (ahead self.old) self.old.place }
        ensures after { self.new ≡ record { schedule = self.old.schedule; place = behind self.old.place (shown result) } }
        ensures records { handed result (λ v. ahead self.old ≡ span v ++ ahead self.new) }
        ensures law { left_of self.old ≡ begun (shown result) (λ _. left_of self.new) }
    {
        let place = self.place;
        let Some(&letter) = self.schedule.get(place) else {
            return Ok(None);
        };
        let start = place + 1;
        let length = body_length(letter, self.schedule.len() - start, place)?;
        let end = start + length;
        let record = view(letter, &self.schedule[start..end]);
        self.place = end;
        Ok(Some(Placed { place, record }))
    }
}
