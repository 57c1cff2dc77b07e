// The law, for every pool.
ghost use Rattle.law.specs.Always.{OfAnyBuild};
ghost use Rattle.law.specs.Law.{EveryTrace};

use pool::Lender;

// Whatever is called on a build that was just opened, and on its pool, in any number and order: the law holds after it.
pub fn every_trace<P: Lender>()
    ensures law { EveryTrace P.Lender.ways }
{}

// Of any build, on whichever pools its calls are made: its schedule has room, one job more runs than tokens are in the
// makes' hands until the finish, and rounds end.
pub fn every_build<P: Lender>()
    ensures law { OfAnyBuild P.Lender.ways }
{}
