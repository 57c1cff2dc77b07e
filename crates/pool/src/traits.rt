// Lenders and pools: what lends tokens, by what one call does to it.
ghost use Rattle.std.specs.Prelude.{◌≡◌, ℕ};
ghost use Rattle.pool.specs.Meaning.{Bounded, Taken, Returned, Heard, total};
ghost use Rattle.pool.specs.Ways.{Ways, Take, Put, Load};

use crate::refusals::Refusal;

// The part of a pool that a tool needs. A lender that takes no readings has heard none.
pub trait Lender {
    ghost ways: { Ways Self };

    // A token, or none exactly when nothing is ready.
    fn take(&mut self) -> Option<u8>
        ensures { Take ways self.old result self.new };

    // Brings a token back, or refuses a byte of which none is out. Each pool makes that test itself: it is one
    // comparison, which a layer leaves to the pool below.
    fn put(&mut self, b: u8) -> Result<(), Refusal>
        ensures { Put ways self.old b result self.new };

    // How many tokens of this byte are in.
    fn count_in(&self, b: u8) -> u32
        ensures { result ≡ (ways.means self.now).ins b };

    // How many tokens of this byte are out.
    fn count_out(&self, b: u8) -> u32
        ensures { result ≡ (ways.means self.now).outs b };

    ghost bounded: { (p : Self) → Bounded (ways.means p) };

    ghost taken: { (p : Self) (b : ℕ) (q : Self) → ways.gave p b q → Taken (ways.means p) b (ways.means q) };

    ghost returned: { (p : Self) (b : ℕ) (q : Self) → ways.back p b q → Returned (ways.means p) b (ways.means q) };

    ghost unmoved: { (p : Self) (x : ℕ) (q : Self) → ways.heard p x q → Heard (ways.means p) (ways.means q) };
}

// A lender that tells what is ready and what is out in all, and hears load readings.
pub trait Pool: Lender {
    // Hears a reading in hundredths, or refuses one above 100,000.
    fn load(&mut self, reading: u32) -> Result<(), Refusal>
        ensures { Load Self.Lender.ways self.old reading result self.new };

    // How many tokens are out in all.
    fn total_out(&self) -> u32
        ensures { result ≡ total (Self.Lender.ways.means self.now).outs };

    // How many takes would now succeed in a row.
    fn ready(&self) -> u32
        ensures { result ≡ (Self.Lender.ways.means self.now).ready };
}
