// What the program prints for an input: a round of obtaining and releasing all tokens of the pool that it asks for, and the
// tree of its script.
#![tactic(auto)]

mod nodes;
mod printed;
mod reports;

pub use reports::report;
