// The rules of a build: what a node may do, and what each call of a build does.
#![tactic(auto)]

mod cases;
mod progress;
mod refusal;
mod serving;

pub use cases::{worked_cases, worked_layers};
pub use progress::{Event, Progress, State};
pub use refusal::Refusal;
pub use serving::{makes_are_served, records_tell, settling_is_so, tokens_go_back};
