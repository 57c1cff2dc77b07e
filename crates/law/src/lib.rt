// The law over traces of a build: what makes, tools and the pool add up to after any calls in any order.
#![tactic(auto)]

mod laws;

pub use laws::{every_build, every_trace};
