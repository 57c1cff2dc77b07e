// The tokens that makes held when jobs of theirs failed.
ghost use Rattle.std.specs.Prelude.{◌≡◌, ◌<◌, ◌+◌, ◌≤◌, ◌∷◌, vec_len, vec_capacity, IfOk};

use crate::tokens::Tokens;
use std::alloc::{AllocError, Global};

// A job that failed, and where in the noted bytes those of its make begin.
#[derive(Clone, Copy)]
pub(crate) struct Loss {
    pub(crate) job: u32,
    pub(crate) from: usize,
}

// The jobs in the order of failing; the bytes of each reach to where those of the next begin. They lie in one list, so that
// noting them asks for no memory.
#[derive(Drop)]
pub(crate) struct Losses {
    pub(crate) jobs: Vec<Loss>,
    pub(crate) bytes: Vec<u8>,
    // `ample` for as many jobs as a tree has nodes, `spare` for as many tokens for each
    ghost ample: { 200 ≤ vec_capacity jobs },
    ghost spare: { 40000 ≤ vec_capacity bytes },
}

impl Losses {
    ghost use Rattle.build.specs.Hands.{own_bytes};
    ghost use Rattle.build.specs.Lost.{noted_losses, Grown};
    ghost use Rattle.build.specs.Models.{in_hand};
    ghost use Rattle.rules.specs.Faults.{tokens_at};

    // Notes the tokens of the make, oldest first, as those that it held when the job failed.
    pub(crate) fn note(&mut self, tokens: &Tokens, make: u32, job: u32)
        requires listed { vec_len self.old.jobs < vec_capacity self.old.jobs }
        requires room { vec_len self.old.bytes + vec_len tokens.now.held ≤ vec_capacity self.old.bytes }
        ensures after { noted_losses self.new ≡ record { job = job; tokens = own_bytes make (in_hand tokens.now) } ∷ noted_losses self.old }
        ensures memory { Grown self.old (vec_len tokens.now.held) self.new }
    {
        let from = self.bytes.len();
        self.jobs.push_reserved(Loss { job, from });
        tokens.add_bytes(make, &mut self.bytes);
    }

    // The tokens that were noted for the job, oldest first.
    pub(crate) fn tokens_at(&self, heap: Global, n: u32) -> Result<Vec<u8>, AllocError>
        ensures result { IfOk result (λ v. v.items ≡ tokens_at n (noted_losses self.now)) }
    {
        let mut end = self.bytes.len();
        for loss in self.jobs.iter().rev() {
            let from = loss.from.min(end);
            if loss.job == n {
                return Vec::from_slice(heap, &self.bytes[from..end]);
            }
            end = from;
        }
        Ok(Vec::new(heap))
    }
}
