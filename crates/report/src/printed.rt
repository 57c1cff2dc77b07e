// The printed lines.
ghost use Rattle.std.specs.Prelude.{◌≡◌, Some, IfOk, string_bytes};
ghost use Rattle.report.specs.Lines.{event_line, event_lines, refusal_line, standing_text};

use drain::{Event, Standing};
use std::alloc::{AllocError, Global};
use std::fmt;

// The end of an event's line: how the pool stands.
#[derive(Drop)]
struct StandingText(Standing);

impl fmt::Display for StandingText {
    ghost output = { λ text. Some (standing_text text.0) };

    fn fmt<W: fmt::Write>(&self, f: &mut fmt::Formatter<W>) -> fmt::Result {
        let Standing {
            byte,
            tokens_in,
            tokens_out,
            ready,
        } = self.0;
        writeln!(f, "{byte} in {tokens_in} out {tokens_out} ready {ready}")
    }
}

// The line of one event.
#[derive(Drop)]
struct EventLine(Event);

impl fmt::Display for EventLine {
    ghost output = { λ line. Some (event_line line.0) };

    fn fmt<W: fmt::Write>(&self, f: &mut fmt::Formatter<W>) -> fmt::Result {
        match self.0 {
            Event::Obtained(standing) => write!(f, "obtained {}", StandingText(standing)),
            Event::Nothing => writeln!(f, "none"),
            Event::Released(standing) => write!(f, "released {}", StandingText(standing)),
        }
    }
}

// The lines of events, in their order.
pub fn event_lines(heap: Global, events: &[Event]) -> Result<String, AllocError>
    ensures result { IfOk result (λ s. string_bytes s ≡ event_lines events.now) }
{
    let mut text = String::new(heap);
    for event in events {
        write!(text, "{}", EventLine(*event))?;
    }
    Ok(text)
}

// The line of a refusal: its number, and the line that it is about.
pub fn refusal_line(heap: Global, number: u32, line: usize) -> Result<String, AllocError>
    ensures result { IfOk result (λ s. string_bytes s ≡ refusal_line number line) }
{
    format!(in heap; "refused {number} {line}\n")
}
