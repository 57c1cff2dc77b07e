// The worked cases, and the pools that they are computed with.
ghost use Rattle.rules.specs.Agreement.{layers_agree, pipe_agrees, semaphore_agrees};
ghost use Rattle.rules.specs.Cases.{Worked};

use pool::Lender;

// Every worked case comes to what it must, by the rules alone.
// The pipe and the semaphore in them are those that the contracts of the pools speak of.
pub fn worked_cases()
    ensures law { Worked }
    ensures pipes { pipe_agrees }
    ensures semaphores { semaphore_agrees }
{}

// So are the layers in them, over every pool.
pub fn worked_layers<P: Lender, X>()
    ensures law { layers_agree P.Lender.ways X }
{}
