// A build at work: its tree, how far each node is, the tokens in hand, and how much of its schedule is written.
ghost use Rattle.std.specs.Prelude.{◌≡◌, ◌+◌, ◌*◌, ◌≤◌, min, vec_len, vec_capacity};
ghost use Rattle.build.specs.Rooms.{to_start, to_end};
ghost use Rattle.tree.specs.Copying.{room_of};
ghost use Rattle.tree.specs.Questions.{count_of};

use crate::losses::Losses;
use crate::tokens::Tokens;
use rules::Progress;
use tree::Tree;

// Pool and buffer go from call to call beside it: each call is handed its own, and a build keeps neither. A struct of the
// three borrows would be no plainer: each method would have to say that it borrows the same three as before. So what is asked
// of all three, as that the buffer has room, and what is so of a node only while it runs, stands on the functions.
#[derive(Drop)]
pub(crate) struct Work {
    pub(crate) tree: Tree,
    pub(crate) keep: bool,
    // by the numbers of the tree's nodes, beside the tree, which stays as it is
    pub(crate) nodes: Vec<Progress>,
    pub(crate) tokens: Tokens,
    // the tokens that its make held when a job failed
    pub(crate) losses: Losses,
    pub(crate) written: usize,
    // every node has its place, and every tree would have room
    ghost whole: { vec_len nodes ≡ count_of tree },
    ghost wide: { 200 ≤ min (vec_capacity nodes) (room_of tree) },
    // all that may still be taken up and noted has room
    ghost few: { vec_len tokens.held + to_start nodes.items ≤ vec_len nodes },
    ghost listed: { vec_len losses.jobs + to_end nodes.items ≤ 200 },
    ghost noted: { vec_len losses.bytes + 200 * to_end nodes.items ≤ 40000 },
}
