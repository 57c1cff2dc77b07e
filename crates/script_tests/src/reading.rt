// A script, read into a fresh tree.
use script::{ReadError, ScriptFault, read_script};
use std::test::Fail;
use tree::Tree;

// The tree then, and the fault of a script that is refused.
pub fn read(rt: &HostRuntime, text: &str) -> Result<(Tree, Option<ScriptFault>), Fail> {
    let mut tree = Tree::new(rt.alloc())?;
    match read_script(&mut tree, rt.alloc(), text.as_bytes()) {
        Ok(()) => Ok((tree, None)),
        Err(ReadError::Fault(fault)) => Ok((tree, Some(fault))),
        Err(ReadError::NoMemory) => Err(Fail::new("no memory")),
    }
}
