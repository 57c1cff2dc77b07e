// A tool that obtains every token of a pool, until none comes, and then releases them all.
#![tactic(auto)]

mod draining;
mod events;
mod pipes;

pub use draining::drain;
pub use events::{Event, Standing};
pub use pipes::drain_pipe;
