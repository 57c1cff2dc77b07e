// The first line of a program's input: `pipe BYTES` or `sem COUNT`, with ` keep` behind it if wanted.
#![tactic(auto)]

mod cuts;
mod lines;
mod types;

pub use lines::read_first_line;
pub use types::{FirstLine, PoolChoice, Refusal};
