// The word layer: where words end, which bytes they may have, names and steps.
ghost use Rattle.std.specs.Prelude.{◌≡◌, ◌≤◌, length};
ghost use Rattle.lines.specs.Words.{before as before_of, indent as indent_of, line_byte};
ghost use Rattle.lines.specs.Faults.{BytesTold, NameTold, StepsTold};

use crate::faults::WordFault;
use crate::place::Place;
use decimal::read_count;

// The number of bytes before the first `stop`, or of all bytes where there is none.
pub fn before(bytes: &[u8], stop: u8) -> usize
    ensures result { result ≡ before_of stop bytes.now }
    ensures within { result ≤ length bytes.now }
{
    bytes.iter().take_while(|b| **b != stop).count()
}

// The number of spaces at the front.
pub(crate) fn indent(bytes: &[u8]) -> usize
    ensures result { result ≡ indent_of bytes.now }
    ensures within { result ≤ length bytes.now }
{
    bytes.iter().take_while(|b| **b == b' ').count()
}

fn may_stand(b: u8) -> bool
    ensures result { result ≡ line_byte b }
{
    b == b' ' || b.is_ascii_lowercase() || b.is_ascii_digit() || matches!(b, b'_' | b'.' | b'-')
}

// Every byte may stand in a line.
pub(crate) fn check_bytes(line: &[u8], place: Place) -> Result<(), WordFault>
    ensures result { BytesTold line.now place result }
{
    if !line.iter().all(|b| may_stand(*b)) {
        return Err(WordFault::StrayByte(place));
    }
    Ok(())
}

// A name has at most 12 bytes.
pub(crate) fn check_name(name: &[u8], place: Place) -> Result<(), WordFault>
    ensures result { NameTold name.now place result }
{
    if name.len() > 12 {
        return Err(WordFault::LongName(place));
    }
    Ok(())
}

// The steps that D says.
pub(crate) fn read_steps(digits: &[u8], place: Place) -> Result<u32, WordFault>
    ensures result { StepsTold digits.now place result }
{
    read_count(digits).ok_or(WordFault::BadSteps(place))
}
