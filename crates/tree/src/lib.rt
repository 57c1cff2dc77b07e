// Trees of makes and jobs, the questions that a tree answers, and a tree that grows in script order.
#![tactic(auto)]

mod copying;
mod growing;
mod growth;
mod node;
mod questions;
mod tree;

pub use growing::Growing;
pub use growth::{MAX_NODES, TreeFault};
pub use node::{Kind, Node};
pub use questions::Unanswered;
pub use tree::Tree;
