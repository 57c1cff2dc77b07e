// A build: its tree is carried out as the rules say, on any pool, with its records in a buffer.
#![tactic(auto)]

mod asking;
mod builds;
mod calls;
mod end;
mod ending;
mod faults;
mod halting;
mod losses;
mod noting;
mod opening;
mod questions;
mod refusals;
mod rounds;
mod searches;
mod start;
mod starting;
mod state;
mod tokens;
mod work;
mod working;

pub use faults::Fault;
pub use state::Build;
