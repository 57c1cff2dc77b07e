// Tools beside the build: each token that a tool holds is a grant, which it must spend exactly once.
#![tactic(auto)]

mod grants;

pub use grants::{Grant, Unreleased, obtain};
