// A schedule: the records of a build, one behind the other, as bytes and as lines.
#![tactic(auto)]

pub mod cause;
mod kind;
pub mod length;
pub mod line;
pub mod reader;
pub mod record;
pub mod refusal;
pub mod view;
pub mod write;
