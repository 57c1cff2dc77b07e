// The line layer: the form of a line.
// A fault names a place, so each step that may find one is told it: errors with no place would be the same faults once more.
ghost use Rattle.std.specs.Prelude.{◌≡◌, [], ◌∷◌};
ghost use Rattle.lines.specs.Words.{parts};
ghost use Rattle.lines.specs.Forms.{read_line, form_of, steps_of};
ghost use Rattle.lines.specs.Faults.{line_shown, blamed};

use crate::faults::LineFault;
use crate::place::Place;
use crate::words::{check_bytes, check_name, indent, read_steps};

#[derive(Clone, Copy, PartialEq, Eq, Debug)]
pub enum Form {
    Job(u32),
    Fail(u32),
    Make,
    Done,
    Wait,
}

// A line of one word.
fn one_word(head: &[u8], place: Place) -> Result<Form, LineFault>
    ensures result { line_shown result ≡ blamed place (form_of (head.now ∷ [])) }
{
    match head {
        b"done" => Ok(Form::Done),
        b"wait" => Ok(Form::Wait),
        _ => Err(LineFault::NoForm(place)),
    }
}

// A line of two words.
fn two_words(head: &[u8], name: &[u8], place: Place) -> Result<Form, LineFault>
    ensures result { line_shown result ≡ blamed place (form_of (head.now ∷ name.now ∷ [])) }
{
    match head {
        b"make" if !name.is_empty() => {
            check_name(name, place)?;
            Ok(Form::Make)
        }
        _ => Err(LineFault::NoForm(place)),
    }
}

// A job's steps, behind its name.
fn named_steps(name: &[u8], digits: &[u8], place: Place) -> Result<u32, LineFault>
    ensures result { line_shown result ≡ blamed place (steps_of name.now digits.now) }
{
    if name.is_empty() || digits.is_empty() {
        return Err(LineFault::NoForm(place));
    }
    check_name(name, place)?;
    Ok(read_steps(digits, place)?)
}

// A line of three words.
fn three_words(head: &[u8], name: &[u8], digits: &[u8], place: Place) -> Result<Form, LineFault>
    ensures result { line_shown result ≡ blamed place (form_of (head.now ∷ name.now ∷ digits.now ∷ [])) }
{
    match head {
        b"job" => Ok(Form::Job(named_steps(name, digits, place)?)),
        b"fail" => Ok(Form::Fail(named_steps(name, digits, place)?)),
        _ => Err(LineFault::NoForm(place)),
    }
}

// The form of the words, the first of which begins at the front.
fn read_words(rest: &[u8], place: Place) -> Result<Form, LineFault>
    ensures result { line_shown result ≡ blamed place (form_of (parts 32 rest.now)) }
{
    let mut words = rest.split(|b| *b == b' ');
    match (words.next(), words.next(), words.next(), words.next()) {
        (Some(head), None, _, _) => one_word(head, place),
        (Some(head), Some(name), None, _) => two_words(head, name, place),
        (Some(head), Some(name), Some(digits), None) => three_words(head, name, digits, place),
        _ => Err(LineFault::NoForm(place)),
    }
}

// The form of a line, whose bytes stand before its byte 10, if it has one.
pub fn read_line(line: &[u8], ended: bool, place: Place) -> Result<Form, LineFault>
    ensures result { line_shown result ≡ blamed place (read_line line.now ended) }
{
    check_bytes(line, place)?;
    if !ended {
        return Err(LineFault::NoForm(place));
    }
    let (_, rest) = line.split_at(indent(line));
    read_words(rest, place)
}
