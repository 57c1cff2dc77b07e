// What a caller of a build can conclude from the contracts of its calls alone.
#![tactic(auto)]

mod conserving;
mod working;

pub use conserving::conserved;
pub use working::worked;
