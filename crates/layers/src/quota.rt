// The quota: a layer that lends no more than so many tokens at once.
ghost use Rattle.std.specs.Prelude.{◌≡◌, min};
ghost use Rattle.pool.specs.Meaning.{most_tokens};
ghost use Rattle.layers.specs.Quotas.{quota_ways};
ghost use Rattle.std.proofs.Common.{arith, rules};
ghost use Rattle.pool.proofs.Totals.{total_more};

use pool::{Lender, MOST_TOKENS, Pool, Refusal};

// A pool of which nothing is ready once `most` tokens are out.
#[derive(Drop)]
pub struct Quota<P> {
    below: P,
    most: u32,
}

impl<P> Quota<P> {
    // A quota of `most` tokens over the pool, or of 63 if more are asked for.
    pub fn new(below: P, most: u32) -> Quota<P>
        ensures below { result.below ≡ below }
        ensures most { result.most ≡ min most most_tokens }
    {
        Quota {
            below,
            most: most.min(MOST_TOKENS),
        }
    }
}

impl<P: Pool> Lender for Quota<P> {
    ghost ways = { quota_ways P.Lender.ways };

    ghost bounded = { Prim.search rules };

    ghost taken = { λ s b t h.
        let below = P.Lender.taken s.below b t.below h.1 in
        let more = total_more _ _ b 1 below.byte below.outs in
        record { byte = below.byte; ins = below.ins; outs = below.outs; ready = omega (arith, more, below.ready, h.0, h.2) } };

    ghost returned = { Prim.search rules };

    ghost unmoved = { Prim.search rules };

    fn take(&mut self) -> Option<u8> {
        if self.below.total_out() >= self.most {
            return None;
        }
        self.below.take()
    }

    fn put(&mut self, b: u8) -> Result<(), Refusal> {
        self.below.put(b)
    }

    fn count_in(&self, b: u8) -> u32 {
        self.below.count_in(b)
    }

    fn count_out(&self, b: u8) -> u32 {
        self.below.count_out(b)
    }
}

impl<P: Pool> Pool for Quota<P> {
    fn load(&mut self, reading: u32) -> Result<(), Refusal> {
        self.below.load(reading)
    }

    fn total_out(&self) -> u32 {
        self.below.total_out()
    }

    fn ready(&self) -> u32 {
        let left = self.most.saturating_sub(self.below.total_out());
        self.below.ready().min(left)
    }
}
