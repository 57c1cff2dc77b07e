// The load limit: a layer that lends nothing while the load is high.
ghost use Rattle.std.specs.Prelude.{◌≡◌, min, max, leb};
ghost use Rattle.pool.specs.Meaning.{highest_reading};
ghost use Rattle.layers.specs.LoadLimits.{limit_ways};
ghost use Rattle.std.proofs.Common.{rules};

use pool::{HIGHEST_READING, Lender, Pool, Refusal};

// A pool of which nothing is ready while the last reading is at least `limit`.
#[derive(Drop)]
pub struct LoadLimit<P> {
    below: P,
    limit: u32,
    reading: u32,
}

impl<P> LoadLimit<P> {
    // A load limit over the pool: the nearest to `limit` from 1 to 100,000. No reading has come yet, so it is 0.
    pub fn new(below: P, limit: u32) -> LoadLimit<P>
        ensures below { result.below ≡ below }
        ensures limit { result.limit ≡ max 1 (min limit highest_reading) }
        ensures reading { result.reading ≡ 0 }
    {
        LoadLimit {
            below,
            limit: limit.clamp(1, HIGHEST_READING),
            reading: 0,
        }
    }

    // Whether the last reading is at least the limit.
    fn is_reached(&self) -> bool
        ensures { result ≡ leb self.now.limit self.now.reading }
    {
        self.limit <= self.reading
    }
}

impl<P: Pool> Lender for LoadLimit<P> {
    ghost ways = { limit_ways P.Lender.ways };

    ghost bounded = { Prim.search rules };

    ghost taken = { Prim.search rules };

    ghost returned = { Prim.search rules };

    ghost unmoved = { Prim.search rules };

    fn take(&mut self) -> Option<u8> {
        if self.is_reached() {
            return None;
        }
        self.below.take()
    }

    fn put(&mut self, b: u8) -> Result<(), Refusal> {
        self.below.put(b)
    }

    fn count_in(&self, b: u8) -> u32 {
        self.below.count_in(b)
    }

    fn count_out(&self, b: u8) -> u32 {
        self.below.count_out(b)
    }
}

impl<P: Pool> Pool for LoadLimit<P> {
    fn load(&mut self, reading: u32) -> Result<(), Refusal> {
        self.below.load(reading)?;
        self.reading = reading;
        Ok(())
    }

    fn total_out(&self) -> u32 {
        self.below.total_out()
    }

    fn ready(&self) -> u32 {
        if self.is_reached() {
            0
        } else {
            self.below.ready()
        }
    }
}
