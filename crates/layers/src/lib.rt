// Layers over any pool: they have its tokens, and narrow what is ready.
// They share no code: what they do alike is four calls passed down, and one layer for both would need a trait with two
// laws on what is ready, and would put `most`, `limit` and `reading`, which the contracts name, one level deeper.
#![tactic(auto)]

mod load_limit;
mod quota;

pub use load_limit::LoadLimit;
pub use quota::Quota;
