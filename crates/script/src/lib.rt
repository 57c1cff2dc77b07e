// Scripts, and the reader that turns a text into a tree or names its fault.
#![tactic(auto)]

mod faults;
mod look;
mod reader;
mod script;

pub use faults::{ReadError, ScriptFault};
pub use script::{read_script, read_with};
