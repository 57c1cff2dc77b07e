// Why a pool says no.
ghost use Rattle.std.specs.Prelude.{◌≡◌};
ghost use Rattle.pool.specs.Numbers.{number};

#[derive(Clone, Copy, Debug, PartialEq, Eq)]
pub enum Refusal {
    // A put of a byte of which no token is out.
    NotOut = 11,
    // A load reading above 100,000.
    ReadingTooHigh = 12,
    // A pipe or semaphore of more than 63 tokens.
    TooManyTokens = 13,
}

impl Refusal {
    // The number under which the refusal is listed.
    pub fn number(&self) -> u32
        ensures result { result ≡ number self.now }
    {
        *self as u32
    }
}
