// Obtaining all tokens of any pool, and releasing them.
ghost use Rattle.std.specs.Prelude.{◌≡◌, ◌+◌, ◌≤◌, vec_len, vec_capacity, IfOk, MatchResult};
ghost use Rattle.drain.specs.Draining.{Drained, HeldOf, ObtainedAll, ReleasedAll, Stands};

use crate::events::{Event, Standing};
use pool::{MOST_TOKENS, Pool};
use std::alloc::{AllocError, Global};
use tool::{Grant, obtain};

// Room for the grants of a whole pool, and for an event for each obtain, for the one that gets nothing, and for each release.
const MOST_GRANTS: usize = MOST_TOKENS as usize;

const MOST_EVENTS: usize = 2 * MOST_GRANTS + 1;

// Obtains tokens until none comes, then releases them, the last one first, and tells each event.
pub fn drain<P: Pool>(heap: Global, pool: &mut P) -> Result<Vec<Event>, AllocError>
    ensures after { MatchResult result (λ es. Drained P.Lender.ways pool.old es.items pool.new) (λ _. pool.new ≡ pool.old) }
{
    let mut round = Round::new(heap)?;
    round.obtain_all(pool);
    round.release_all(pool);
    Ok(round.into_events())
}

// How the pool stands with this byte.
fn standing<P: Pool>(pool: &P, byte: u8) -> Standing
    ensures byte { result.byte ≡ byte }
    ensures stands { Stands P.Lender.ways result pool.now }
{
    Standing {
        byte,
        tokens_in: pool.count_in(byte),
        tokens_out: pool.count_out(byte),
        ready: pool.ready(),
    }
}

// The grants that are held, and what happened so far. The room is there before the pool is touched.
struct Round {
    held: Vec<Grant>,
    events: Vec<Event>,
    ghost room: { (63 ≤ vec_capacity held) × (127 ≤ vec_capacity events) },
}

impl Round {
    // No grant is held, and nothing has happened.
    fn new(heap: Global) -> Result<Round, AllocError>
        ensures { IfOk result (λ r. (vec_len r.held ≡ 0) × (vec_len r.events ≡ 0)) }
    {
        let events = Vec::with_capacity(heap, MOST_EVENTS)?;
        let held = Vec::with_capacity(heap, MOST_GRANTS)?;
        Ok(Round { held, events })
    }

    // Obtains tokens until none comes.
    fn obtain_all<P: Pool>(&mut self, pool: &mut P)
        requires empty { (vec_len self.old.held ≡ 0) × (vec_len self.old.events ≡ 0) }
        ensures after { ObtainedAll P.Lender.ways pool.old self.new.held.items self.new.events.items pool.new }
        ensures len { (vec_len self.new.held ≤ 63) × (vec_len self.new.events ≡ vec_len self.new.held + 1) }
        ensures capacity { vec_capacity self.new.events ≡ vec_capacity self.old.events }
    {
        while let Some(grant) = obtain(pool) {
            self.events
                .push_reserved(Event::Obtained(standing(pool, grant.byte())));
            self.held.push_reserved(grant);
        }
        self.events.push_reserved(Event::Nothing);
    }

    // Releases the grants, the last one first.
    fn release_all<P: Pool>(&mut self, pool: &mut P)
        requires out { HeldOf P.Lender.ways pool.old self.old.held.items }
        requires room { vec_len self.old.events + vec_len self.old.held ≤ vec_capacity self.old.events }
        ensures after { ReleasedAll P.Lender.ways pool.old self.old.held.items self.old.events.items self.new.events.items pool.new }
        ensures len { vec_len self.new.held ≡ 0 }
    {
        while let Some(grant) = self.held.pop() {
            let byte = grant.byte();
            grant.release(pool).unwrap();
            self.events
                .push_reserved(Event::Released(standing(pool, byte)));
        }
    }

    // What happened, once no grant is held.
    fn into_events(self) -> Vec<Event>
        requires { vec_len self.held ≡ 0 }
        ensures { result ≡ self.events }
    {
        let Round { held, events } = self;
        held.destroy_empty();
        events
    }
}
