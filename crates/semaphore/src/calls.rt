// Making a semaphore, and its calls as a pool.
ghost use Rattle.pool.specs.Ways.{Fill};
ghost use Rattle.semaphore.specs.Semaphores.{AllIn, semaphore_ways};
ghost use Rattle.std.proofs.Common.{arith, lit<, rules};
ghost use Rattle.pool.proofs.Totals.{total_only};

use crate::state::Semaphore;
use pool::{Lender, Pool, Refusal, check_count, check_reading};

// The byte of every token.
const PLUS: u8 = 43;

impl Semaphore {
    // An empty semaphore.
    pub fn new() -> Semaphore
        ensures result { AllIn 0 result }
    {
        Semaphore {
            tokens_in: 0,
            tokens_out: 0,
        }
    }

    // Makes the semaphore anew with `count` tokens in and none out, or refuses more than 63.
    pub fn fill(&mut self, count: u32) -> Result<(), Refusal>
        ensures after { Fill (AllIn count) count self.old result self.new }
    {
        check_count(count as usize)?;
        *self = Semaphore {
            tokens_in: count,
            tokens_out: 0,
        };
        Ok(())
    }
}

impl Lender for Semaphore {
    ghost ways = { semaphore_ways };

    ghost bounded = { λ p.
        let all_in = total_only 43 p.tokens_in (lit< tt) in
        let all_out = total_only 43 p.tokens_out (lit< tt) in
        record { few = omega arith; backed = omega arith } };

    ghost taken = { Prim.search rules };

    ghost returned = { Prim.search rules };

    ghost unmoved = { Prim.search rules };

    fn take(&mut self) -> Option<u8> {
        if self.tokens_in == 0 {
            return None;
        }
        self.tokens_in -= 1;
        self.tokens_out += 1;
        Some(PLUS)
    }

    fn put(&mut self, b: u8) -> Result<(), Refusal> {
        if self.count_out(b) == 0 {
            return Err(Refusal::NotOut);
        }
        self.tokens_in += 1;
        self.tokens_out -= 1;
        Ok(())
    }

    fn count_in(&self, b: u8) -> u32 {
        if b == PLUS { self.tokens_in } else { 0 }
    }

    fn count_out(&self, b: u8) -> u32 {
        if b == PLUS { self.tokens_out } else { 0 }
    }
}

impl Pool for Semaphore {
    fn load(&mut self, reading: u32) -> Result<(), Refusal> {
        check_reading(reading)
    }

    #[tactic(auto, using(pool::proofs::Totals::total_only))]
    fn total_out(&self) -> u32 {
        self.tokens_out
    }

    fn ready(&self) -> u32 {
        self.tokens_in
    }
}
