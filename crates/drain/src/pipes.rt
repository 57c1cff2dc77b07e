// The same on a pipe: what is known of a pipe is not lost in code that knows only a pool.
ghost use Rattle.std.specs.Prelude.{◌≡◌, map, reverse, MatchResult};
ghost use Rattle.drain.specs.Draining.{all_and_back, op};
ghost use Rattle.pipe.specs.Pipes.{line};

use crate::draining::drain;
use crate::events::Event;
use pipe::Pipe;
use std::alloc::{AllocError, Global};

// Every token comes in the order of the pipe, and the pipe then has them the other way round.
pub fn drain_pipe(heap: Global, pipe: &mut Pipe) -> Result<Vec<Event>, AllocError>
    ensures after { MatchResult result (λ es. (map op es.items ≡ all_and_back (line pipe.old)) × (line pipe.new ≡ reverse (line pipe.old))) (λ _. pipe.new ≡ pipe.old) }
{
    drain(heap, pipe)
}
