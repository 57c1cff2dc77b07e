// The pipe: a pool that gives its tokens in the order in which they entered.
#![tactic(auto)]

mod calls;
mod ring;
mod state;
mod tally;

pub use state::Pipe;
