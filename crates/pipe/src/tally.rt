// How many there are of each byte.
ghost use Rattle.std.specs.Prelude.{◌≡◌, ℕ, ◌+◌, ◌^◌, ◌<◌, length, slice_index};
ghost use Rattle.pool.specs.Meaning.{only, total};

// A count for each byte, and the sum of the counts.
#[derive(Drop)]
pub struct Tally {
    pub(crate) counts: [u32; 256],
    sum: u32,
    ghost summed: { total (slice_index counts) ≡ sum },
    ghost size: { length counts ≡ 256 },
}

impl Tally {
    pub(crate) fn new() -> Tally
        ensures counts { (k : ℕ) → slice_index result.counts k ≡ 0 }
        ensures sum { total (slice_index result.counts) ≡ 0 }
    {
        Tally {
            counts: [0; 256],
            sum: 0,
        }
    }

    // How many there are of this byte.
    pub(crate) fn count(&self, b: u8) -> u32
        ensures result { result ≡ slice_index self.now.counts b }
    {
        self.counts[b as usize]
    }

    // How many there are of all bytes.
    pub(crate) fn sum(&self) -> u32
        ensures result { result ≡ total (slice_index self.now.counts) }
    {
        self.sum
    }

    // One more of this byte.
    pub(crate) fn add(&mut self, b: u8)
        requires { total (slice_index self.old.counts) + 1 < 2 ^ 32 }
        ensures counts { (k : ℕ) → slice_index self.new.counts k ≡ slice_index self.old.counts k + only b 1 k }
        ensures sum { total (slice_index self.new.counts) ≡ total (slice_index self.old.counts) + 1 }
    {
        self.counts[b as usize] += 1;
        self.sum += 1;
    }

    // One less of this byte.
    pub(crate) fn remove(&mut self, b: u8)
        requires { 0 < slice_index self.old.counts b }
        ensures counts { (k : ℕ) → slice_index self.new.counts k + only b 1 k ≡ slice_index self.old.counts k }
        ensures sum { total (slice_index self.new.counts) + 1 ≡ total (slice_index self.old.counts) }
    {
        self.counts[b as usize] -= 1;
        self.sum -= 1;
    }
}
