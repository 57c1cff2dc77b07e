// Who is served, in the words of the rule.
ghost use Rattle.rules.specs.Builds.{Build};
ghost use Rattle.rules.specs.Causes.{FirstFault, TellsAll, TreesOrdered};
ghost use Rattle.rules.specs.Returns.{Returned};
ghost use Rattle.rules.specs.Settled.{SettlingIsSo};
ghost use Rattle.rules.specs.Words.{Served};

// In every build: the child that may start is found, and no other; implicit slots are used from the lowest make on,
// a token is asked for only when no slot can be used, and then by the lowest make that may start a child.
pub fn makes_are_served()
    ensures law { (b : Build) → Served b }
{}

// Settling is a row of such starts on every pool, and ends just when no token comes or nothing may start.
pub fn settling_is_so<P>()
    ensures law { SettlingIsSo P }
{}

// In every call on every pool, a token goes back directly behind the end of a child of its make.
pub fn tokens_go_back<P>()
    ensures law { Returned P }
{}

// After every call on every pool the records tell the steps that each job has done, which child of each make failed
// first, and the cause of every failure; so a failed make answers with the fault of the child that was first to fail.
// What this asks of a tree holds of every tree that can be held.
pub fn records_tell<P>()
    ensures law { TellsAll P }
    ensures faults { FirstFault P }
    ensures trees { TreesOrdered }
{}
