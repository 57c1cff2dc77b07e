// The semaphore: a pool that only counts, for every token of it is the byte 43.
#![tactic(auto)]

mod calls;
mod state;

pub use state::Semaphore;
