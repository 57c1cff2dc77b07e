// The printed line of a record: its letter, and its fields in decimal, each behind a space.
ghost use Rattle.std.specs.Prelude.{◌≡◌, ◌+◌, ◌≤◌, true, [], ◌∷◌, length, is_some, decimal, MatchResult};
ghost use Rattle.schedule.specs.Buffers.{Wrote};
ghost use Rattle.schedule.specs.Lines.{line_of, printed, line_answer};
ghost use Rattle.schedule.specs.Records.{kind_of};

use crate::record::Record;
use crate::refusal::ShortBuffer;

// The length of a buffer that has room for any record's line.
pub const LINE_ROOM: usize = 24;

// Writes some bytes at a place where they have room, and answers the place behind them. Buffer and place go one by one:
// each call on a struct of both would have to promise, too, that it keeps the reference to the buffer.
#[tactic(auto, using(crate::proofs::Buffers::wrote_part))]
fn put(buffer: &mut [u8], place: usize, added: &[u8]) -> usize
    requires { place + length added.now ≤ length buffer.old }
    ensures { Wrote buffer.old place added.now buffer.new result }
{
    let end = place + added.len();
    buffer[place..end].copy_from_slice(added);
    end
}

// Writes a kind as its letter at the front of the buffer. The match names the ten letters, so that no other byte is shown.
fn put_letter(buffer: &mut [u8], kind: u8) -> usize
    requires room { 1 ≤ length buffer.old }
    requires known { is_some (kind_of kind) ≡ true }
    ensures { Wrote buffer.old 0 (kind ∷ []) buffer.new result }
{
    match char::from(kind) {
        letter @ ('O' | 'A' | 'T' | 'S' | 'K' | 'H' | 'E' | 'F' | 'R' | 'D') => put(
            buffer,
            0,
            &[letter as u8],
        ),
        _ => unreachable(),
    }
}

// Writes a space and a field in decimal. No call of std prints into a buffer and is sure to succeed, so the digits are
// made here.
#[tactic(auto, using(std::proofs::lemmas::Fmt::decimal_digit, std::proofs::lemmas::Fmt::decimal_step))]
fn put_field(buffer: &mut [u8], place: usize, field: u8) -> usize
    requires { place + 4 ≤ length buffer.old }
    ensures after { Wrote buffer.old place (32 ∷ decimal field) buffer.new result }
    ensures result { result ≤ place + 4 }
{
    let hundreds = b'0' + field / 100;
    let tens = b'0' + field / 10 % 10;
    let ones = b'0' + field % 10;
    match field {
        0..10 => put(buffer, place, &[b' ', ones]),
        10..100 => put(buffer, place, &[b' ', tens, ones]),
        100.. => put(buffer, place, &[b' ', hundreds, tens, ones]),
    }
}

// Writes the line of a kind and its fields at the front of the buffer.
fn put_line(buffer: &mut [u8], kind: u8, fields: &[u8]) -> usize
    requires room { 24 ≤ length buffer.old }
    requires known { is_some (kind_of kind) ≡ true }
    requires few { length fields.now ≤ 3 }
    ensures { Wrote buffer.old 0 (line_of (kind ∷ fields.now)) buffer.new result }
{
    let mut at = put_letter(buffer, kind);
    for field in fields {
        at = put_field(buffer, at, *field);
    }
    put(buffer, at, b"\n")
}

impl Record {
    // Writes the record's line at the front of the buffer, and answers the line's length.
    pub fn line(self, buffer: &mut [u8]) -> Result<usize, ShortBuffer>
        ensures result { result ≡ line_answer (length buffer.old) self }
        ensures after { MatchResult result (λ to. Wrote buffer.old 0 (printed self) buffer.new to) (λ _. buffer.new ≡ buffer.old) }
    {
        if buffer.len() < LINE_ROOM {
            return Err(ShortBuffer);
        }
        let mut bytes = [0u8; 4];
        let size = self.size();
        self.encode(&mut bytes[0..size]);
        Ok(put_line(buffer, bytes[0], &bytes[1..size]))
    }
}
