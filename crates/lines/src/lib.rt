// One line of a script: its words and its form, or the fault of its word or line layer.
#![tactic(auto)]

mod faults;
mod forms;
mod place;
mod words;

pub use faults::{Layer, LineFault, WordFault};
pub use forms::{Form, read_line};
pub use place::Place;
pub use words::before;
