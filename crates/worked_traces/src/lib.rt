// That the law over traces speaks of something: traces of the worked tree, with every kind of call.
#![tactic(auto)]

mod shown;

pub use shown::{every_kind_of_call, queues_lend, worked_traces};
