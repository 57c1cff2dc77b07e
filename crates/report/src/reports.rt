// From the input to the printed text.
ghost use Rattle.std.specs.Prelude.{◌≡◌, IfOk, string_bytes};
ghost use Rattle.first_line.specs.Head.{told_choice};
ghost use Rattle.report.specs.Report.{Reported, Round, Scripted, Told};
ghost use Rattle.script.specs.Reading.{read_text};

use crate::nodes::push_tree;
use crate::printed::{event_lines, refusal_line};
use drain::drain;
use first_line::{FirstLine, PoolChoice, read_first_line};
use pipe::Pipe;
use pool::Pool;
use script::{ReadError, read_script};
use semaphore::Semaphore;
use std::alloc::{AllocError, Global};
use tree::Tree;

// The text that the program prints.
pub fn report(heap: Global, input: &[u8]) -> Result<Vec<u8>, AllocError>
    ensures result { IfOk result (λ v. Reported input.now v.items) }
{
    let text = match read_first_line(input) {
        Err(refusal) => refusal_line(heap, refusal.number(), 0)?,
        Ok(line) => script_report(heap, line)?,
    };
    Ok(text.into_bytes())
}

// The text for what a first line says, and the script behind it.
fn script_report(heap: Global, line: FirstLine) -> Result<String, AllocError>
    ensures result { IfOk result (λ s. Scripted (told_choice line.entry.pool) (read_text line.entry.rest.now) (string_bytes s)) }
{
    let mut tree = Tree::new(heap)?;
    match read_script(&mut tree, heap, line.rest) {
        Ok(()) => {
            let mut text = pool_round(heap, line)?;
            push_tree(&mut text, &tree)?;
            Ok(text)
        }
        Err(ReadError::Fault(fault)) => refusal_line(heap, fault.number(), fault.place().line),
        // want of memory is one case of several for the reader, and holds no error to hand on
        Err(ReadError::NoMemory) => Err(AllocError),
    }
}

// The lines of a round on the pool that is asked for.
fn pool_round(heap: Global, line: FirstLine) -> Result<String, AllocError>
    ensures result { IfOk result (λ s. Told (told_choice line.entry.pool) (string_bytes s)) }
{
    match line.pool {
        PoolChoice::Pipe(tokens) => {
            let mut pipe = Pipe::new();
            pipe.fill(tokens).unwrap();
            round(heap, &mut pipe)
        }
        PoolChoice::Semaphore(count) => {
            let mut semaphore = Semaphore::new();
            semaphore.fill(count).unwrap();
            round(heap, &mut semaphore)
        }
    }
}

// The lines of a round on the pool.
fn round<P: Pool>(heap: Global, pool: &mut P) -> Result<String, AllocError>
    ensures result { IfOk result (λ s. Round P.Lender.ways (λ p. p ≡ pool.old) (string_bytes s)) }
{
    let events = drain(heap, pool)?;
    event_lines(heap, events.as_slice())
}
