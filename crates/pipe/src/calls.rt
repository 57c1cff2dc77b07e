// Making a pipe, and its calls as a pool.
ghost use Rattle.std.specs.Prelude.{◌≡◌, ◌+◌, ◌<◌, ◌≤◌, [], ◌∷◌, ◌++◌, length, slice_index};
ghost use Rattle.std.proofs.Common.{sym, ap, ◌∙◌, arith, rules};
ghost use Rattle.pool.specs.Ways.{Fill};
ghost use Rattle.pipe.specs.Pipes.{AllIn, line, out, pipe_ways};
ghost use Rattle.pool.specs.Meaning.{count, most_tokens, total};
ghost use Rattle.pool.proofs.Totals.{total_same};
ghost use Rattle.pool.proofs.Counts.{count_first, count_append};

use crate::ring::Ring;
use crate::state::Pipe;
use crate::tally::Tally;
use pool::{Lender, Pool, Refusal, check_count, check_reading};

impl Pipe {
    // An empty pipe.
    pub fn new() -> Pipe
        ensures result { AllIn [] result }
    {
        Pipe {
            line: Ring::new(),
            ins: Tally::new(),
            outs: Tally::new(),
        }
    }

    // Makes the pipe anew with these tokens in, entered from first to last, and none out, or refuses more than 63.
    pub fn fill(&mut self, tokens: &[u8]) -> Result<(), Refusal>
        ensures after { Fill (AllIn tokens.now) (length tokens.now) self.old result self.new }
    {
        check_count(tokens.len())?;
        *self = Pipe::filled(tokens);
        Ok(())
    }

    // A pipe with these tokens in, entered from first to last.
    fn filled(tokens: &[u8]) -> Pipe
        requires { length tokens.now ≤ most_tokens }
        ensures { AllIn tokens.now result }
    {
        let mut pipe = Pipe::new();
        for &b in tokens {
            pipe.enter(b);
        }
        pipe
    }

    // One token more at the end of the line.
    fn enter(&mut self, b: u8)
        requires { length (line self.old) + total (out self.old) < most_tokens }
        ensures line { line self.new ≡ line self.old ++ b ∷ [] }
        ensures outs { self.new.outs ≡ self.old.outs }
    {
        self.line.push(b);
        self.ins.add(b);
    }
}

impl Lender for Pipe {
    ghost ways = { pipe_ways };

    ghost bounded = { λ p.
        let all_in = total_same (λ k. count k (line p)) (slice_index p.ins.counts) p.counted in
        record { few = omega (arith, all_in, p.all_in, p.few); backed = omega (arith, all_in, p.all_in) } };

    ghost taken = { λ p b q g.
        record {
          byte = g.0;
          ins = λ k. sym (ap (count k) g.1 ∙ count_first k b (line q));
          outs = g.2;
          ready = omega (arith, ap length g.1);
        } };

    ghost returned = { λ p b q g.
        record {
          byte = g.0;
          ins = λ k. ap (count k) g.1 ∙ count_append k (line p) b;
          outs = g.2;
        } };

    ghost unmoved = { Prim.search rules };

    fn take(&mut self) -> Option<u8> {
        let first = self.line.pop()?;
        self.ins.remove(first);
        self.outs.add(first);
        Some(first)
    }

    fn put(&mut self, b: u8) -> Result<(), Refusal> {
        if self.count_out(b) == 0 {
            return Err(Refusal::NotOut);
        }
        self.outs.remove(b);
        self.enter(b);
        Ok(())
    }

    fn count_in(&self, b: u8) -> u32 {
        self.ins.count(b)
    }

    fn count_out(&self, b: u8) -> u32 {
        self.outs.count(b)
    }
}

impl Pool for Pipe {
    fn load(&mut self, reading: u32) -> Result<(), Refusal> {
        check_reading(reading)
    }

    fn total_out(&self) -> u32 {
        self.outs.sum()
    }

    fn ready(&self) -> u32 {
        self.ins.sum()
    }
}
