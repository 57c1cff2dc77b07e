// An open on a pipe: what is known of a pipe is not lost in a build that knows only a pool.
ghost use Rattle.std.specs.Prelude.{◌≡◌, IfOk, Ok, codes};
ghost use Rattle.build.specs.Places.{place};
ghost use Rattle.concluding.specs.Working.{OpenedXy};
ghost use Rattle.pipe.specs.Pipes.{AllIn};
ghost use Rattle.rules.specs.Cases.{script_z};
ghost use Rattle.script.specs.Reading.{read_text};
ghost use Rattle.tree.specs.Questions.{nodes_of};

use build::Build;
use pipe::Pipe;
use rules::Refusal;
use tree::Tree;

// Opens the tree on the pipe. The tree of the worked script, on a pipe of `x` and `y`, is written as just its records.
pub fn worked(
    build: &mut Build,
    tree: &Tree,
    pipe: &mut Pipe,
    buffer: &mut [u8],
) -> Result<u32, Refusal>
    ensures after { read_text script_z ≡ Ok (nodes_of tree.now) → AllIn (codes "xy") pipe.old → IfOk result (λ n. OpenedXy n (place build.new) pipe.new buffer.new) }
{
    build.open(tree, false, pipe, buffer)
}
