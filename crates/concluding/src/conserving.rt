// Calls in a row on a build and on a pool that is known only by its trait.
ghost use Rattle.build.specs.Places.{place};
ghost use Rattle.concluding.specs.Conserving.{Conserved, Brought};
ghost use Rattle.std.specs.Prelude.{IfOk};

use build::Build;
use pool::{Lender, Pool};
use rules::Refusal;
use tool::{Grant, Unreleased, obtain};
use tree::Tree;

// Opens a build, and then, whatever they answer: obtains a grant, steps and kills the node, polls, releases the grant
// and halts. Answers what the open answered. A grant that cannot be released is written off, and its token stays out.
pub fn conserved<P: Pool>(
    build: &mut Build,
    tree: &Tree,
    keep: bool,
    pool: &mut P,
    buffer: &mut [u8],
    node: u32,
) -> Result<u32, Refusal>
    ensures after { IfOk result (λ n. Conserved P.Lender.ways tree.now keep node n (place build.old) pool.old buffer.old (place build.new) pool.new buffer.new) }
{
    let opened = build.open(tree, keep, pool, buffer);
    let grant = obtain(pool);
    let _ = build.step(node, pool, buffer);
    let _ = build.kill(node, pool, buffer);
    let _ = build.poll(pool, buffer);
    bring_back(grant, pool);
    let _ = build.halt(pool, buffer);
    opened
}

// Releases the grant, if there is one; where the pool refuses, writes it off.
fn bring_back<P: Lender>(grant: Option<Grant>, pool: &mut P)
    ensures after { Brought P.Lender.ways pool.old grant pool.new }
{
    if let Some(grant) = grant {
        if let Err(Unreleased { grant, refusal: _ }) = grant.release(pool) {
            grant.write_off();
        }
    }
}
