// The trait of all pools of job tokens: what take, put and load mean, and the laws that every pool owes.
#![tactic(auto)]

mod limits;
mod refusals;
mod traits;

pub use limits::{HIGHEST_READING, MOST_TOKENS, check_count, check_reading};
pub use refusals::Refusal;
pub use traits::{Lender, Pool};
