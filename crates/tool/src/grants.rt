// Obtaining, releasing and writing off a grant.
ghost use Rattle.std.specs.Prelude.{◌≡◌};
ghost use Rattle.tool.specs.Grants.{Obtain, Release};

use pool::{Lender, Refusal};

// One token in a tool's hand. It cannot be let go or copied, only spent: released, or written off.
pub struct Grant {
    byte: u8,
}

// A release that was refused, with the grant that is still to be spent.
pub struct Unreleased {
    pub grant: Grant,
    pub refusal: Refusal,
}

// A grant of one token, or none exactly when nothing is ready.
pub fn obtain<L: Lender>(lender: &mut L) -> Option<Grant>
    ensures after { Obtain L.Lender.ways lender.old result lender.new }
{
    lender.take().map(|byte| Grant { byte })
}

impl Grant {
    // The byte of the token.
    pub fn byte(&self) -> u8
        ensures result { result ≡ self.now.byte }
    {
        self.byte
    }

    // Puts the token back; a lender that has none of its byte out refuses, and the grant comes back.
    pub fn release<L: Lender>(self, lender: &mut L) -> Result<(), Unreleased>
        ensures after { Release L.Lender.ways lender.old self result lender.new }
    {
        // no `map_err`: a closure that holds the grant could let it fall
        match lender.put(self.byte) {
            Ok(()) => {
                let Grant { byte: _ } = self;
                Ok(())
            }
            Err(refusal) => Err(Unreleased {
                grant: self,
                refusal,
            }),
        }
    }

    // Spends the grant without a put: its token stays out.
    pub fn write_off(self) {
        let Grant { byte: _ } = self;
    }
}
