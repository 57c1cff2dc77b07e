// How many bytes follow a kind byte.
ghost use Rattle.std.specs.Prelude.{◌≡◌};
ghost use Rattle.schedule.specs.Reading.{body_length};

use crate::refusal::ReadRefusal;

// The length of the body behind a kind byte at a place, with some bytes left in the schedule behind it. The match shows for
// each kind how a body is cut short, so the lengths of `Kind` stand here again.
pub fn body_length(kind: u8, left: usize, place: usize) -> Result<usize, ReadRefusal>
    ensures result { result ≡ body_length kind left place }
{
    match kind {
        b'O' | b'T' if left < 3 => Err(ReadRefusal::CutShort { place }),
        b'O' | b'T' => Ok(3),
        b'A' | b'F' | b'R' if left < 2 => Err(ReadRefusal::CutShort { place }),
        b'A' | b'F' | b'R' => Ok(2),
        b'S' | b'K' | b'E' | b'D' if left < 1 => Err(ReadRefusal::CutShort { place }),
        b'S' | b'K' | b'E' | b'D' => Ok(1),
        b'H' => Ok(0),
        _ => Err(ReadRefusal::UnknownKind { place }),
    }
}
