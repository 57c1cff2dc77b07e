// Records written into a buffer, one behind the other.
ghost use Rattle.std.specs.Prelude.{◌≡◌, ◌+◌, ◌≤◌, length, IfOk, MatchResult, nat_le};
ghost use Rattle.std.specs.List.{between};
ghost use Rattle.schedule.specs.Buffers.{Wrote, place_after};
ghost use Rattle.schedule.specs.Reading.{division, all_of, Behind};
ghost use Rattle.schedule.specs.Records.{bytes, size, encoded};

use crate::record::Record;
use crate::refusal::ShortBuffer;

impl Record {
    // Writes the record's bytes into a part that is just as long.
    pub(crate) fn encode(self, out: &mut [u8])
        requires { length out.old ≡ size self }
        ensures { out.new ≡ bytes self }
    {
        let letter = self.kind().letter();
        match self {
            Record::Halt => out.copy_from_slice(&[letter]),
            Record::Step { job: field }
            | Record::Kill { job: field }
            | Record::EndedWell { node: field }
            | Record::Finished { failed: field } => out.copy_from_slice(&[letter, field]),
            Record::StartInSlot { make, child } => out.copy_from_slice(&[letter, make, child]),
            Record::EndedFailed { node, cause } => out.copy_from_slice(&[letter, node, cause]),
            Record::PutBack { make, token } => out.copy_from_slice(&[letter, make, token]),
            Record::Open { limit, keep, nodes } => {
                out.copy_from_slice(&[letter, limit, keep, nodes])
            }
            Record::StartWithToken { make, child, token } => {
                out.copy_from_slice(&[letter, make, child, token])
            }
        }
    }

    // Writes the record at a place where it has room, and answers the place behind it.
    fn put(self, buffer: &mut [u8], place: usize) -> usize
        requires { place + size self ≤ length buffer.old }
        ensures after { Wrote buffer.old place (bytes self) buffer.new result }
        ensures law { Behind place buffer.old self buffer.new result }
    {
        let end = place + self.size();
        self.encode(&mut buffer[place..end]);
        end
    }

    // Writes the record from a place on, and answers the place behind it.
    pub fn write(self, buffer: &mut [u8], place: usize) -> Result<usize, ShortBuffer>
        ensures result { result ≡ place_after (length buffer.old) place (size self) }
        ensures after { MatchResult result (λ to. Wrote buffer.old place (bytes self) buffer.new to) (λ _. buffer.new ≡ buffer.old) }
        ensures law { IfOk result (λ to. Behind place buffer.old self buffer.new to) }
    {
        let room = buffer.len().checked_sub(place).ok_or(ShortBuffer)?;
        if room < self.size() {
            return Err(ShortBuffer);
        }
        Ok(self.put(buffer, place))
    }
}

// Whether records, one behind the other, have so many bytes or fewer.
fn fit(records: &[Record], room: usize) -> bool
    ensures { result ≡ nat_le (length (encoded records.now)) room }
{
    records
        .iter()
        .try_fold(room, |left, record| left.checked_sub(record.size()))
        .is_some()
}

// Writes records one behind the other at a place where they have room, and answers the place behind them.
fn put_records(records: &[Record], buffer: &mut [u8], place: usize) -> usize
    requires { place + length (encoded records.now) ≤ length buffer.old }
    ensures after { Wrote buffer.old place (encoded records.now) buffer.new result }
    ensures law { division (between place result buffer.new) 0 ≡ all_of 0 records.now }
{
    let mut at = place;
    for record in records {
        at = record.put(buffer, at);
    }
    at
}

// Writes records one behind the other from a place on, and answers the place behind them.
pub fn write_records(
    records: &[Record],
    buffer: &mut [u8],
    place: usize,
) -> Result<usize, ShortBuffer>
    ensures result { result ≡ place_after (length buffer.old) place (length (encoded records.now)) }
    ensures after { MatchResult result (λ to. Wrote buffer.old place (encoded records.now) buffer.new to) (λ _. buffer.new ≡ buffer.old) }
    ensures law { IfOk result (λ to. division (between place to buffer.new) 0 ≡ all_of 0 records.now) }
{
    let room = buffer.len().checked_sub(place).ok_or(ShortBuffer)?;
    if !fit(records, room) {
        return Err(ShortBuffer);
    }
    Ok(put_records(records, buffer, place))
}
