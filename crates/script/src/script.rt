// The calls that read a script.
ghost use Rattle.script.specs.Script.{Answered, Read, Exact};

use crate::faults::{ReadError, ScriptFault};
use crate::reader::Reader;
use lines::Place;
use std::alloc::Global;
use tree::{Growing, Tree};

const MAX_BYTES: usize = 16_384;

// Reads a script into the place of a tree, in memory that is there already.
// The tree stays as it was where the script is refused.
pub fn read_with(tree: &mut Tree, growing: Growing, text: &[u8]) -> Result<(), ScriptFault>
    ensures result { Answered text.now tree.old result tree.new }
    ensures law { Exact text.now }
{
    if text.len() > MAX_BYTES {
        return Err(ScriptFault::TooLong);
    }
    let place = Place { line: 1, byte: 0 };
    let reader = Reader { text, place };
    let whole = reader.whole(growing.restart())?;
    *tree = whole;
    Ok(())
}

// The same in memory of its own. Where that is wanting, the tree stays as it was too.
pub fn read_script(tree: &mut Tree, heap: Global, text: &[u8]) -> Result<(), ReadError>
    ensures result { Read text.now tree.old result tree.new }
    ensures law { Exact text.now }
{
    let growing = Growing::new(heap)?;
    read_with(tree, growing, text)?;
    Ok(())
}
