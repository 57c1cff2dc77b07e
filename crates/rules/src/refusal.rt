// Why a call of a build says no.
ghost use Rattle.std.specs.Prelude.{◌≡◌};
ghost use Rattle.rules.specs.Refusing.{number};

#[derive(Clone, Copy, Debug, PartialEq, Eq)]
pub enum Refusal {
    // An open on a pool of which tokens are out.
    TokensOut = 14,
    // A schedule buffer shorter than the tree needs.
    ShortBuffer = 15,
    // The build is finished.
    Finished = 16,
    // Of some byte fewer are out of the pool than the makes hold.
    TokensMissing = 17,
    // The node is not a running job.
    NotRunningJob = 18,
}

impl Refusal {
    // The number under which the refusal is listed.
    pub fn number(self) -> u32
        ensures result { result ≡ number self }
    {
        self as u32
    }
}
