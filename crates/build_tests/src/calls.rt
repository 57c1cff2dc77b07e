// What the tables share: scripts, calls as data, so that rows can be constants, and what a build is made on.
use build::Build;
use pipe::Pipe;
use rules::Refusal;
use script::read_script;
use std::process::Abort;
use std::test::Fail;
use tree::Tree;

// Jobs 1 and 6 of make 0, a wait before 6, and make 2 with jobs 3, 4 and 5, of which 4 fails. Opened on a pipe of x and y, jobs
// 1, 3 and 4 run.
pub const WORKED: &str = "job a 2\nmake lib\njob b 1\nfail c 2\njob d 1\ndone\nwait\njob e 1\n";

// Make 1 with make 2 (jobs 3, which fails, and 4) and job 5, which fails; jobs 6 and 7, which fails, of make 0.
pub const FAILURES: &str =
    "make a\nmake b\nfail c 1\njob d 1\ndone\nfail e 1\ndone\njob f 1\nfail g 1\n";

#[derive(Clone, Copy)]
pub enum Call {
    Step(u32),
    Kill(u32),
    Poll,
    Halt,
    Rounds,
}

impl Call {
    pub fn carry_out(
        self,
        build: &mut Build,
        pipe: &mut Pipe,
        buffer: &mut [u8],
    ) -> Result<u32, Refusal> {
        match self {
            Call::Step(node) => build.step(node, pipe, buffer),
            Call::Kill(node) => build.kill(node, pipe, buffer),
            Call::Poll => build.poll(pipe, buffer),
            Call::Halt => build.halt(pipe, buffer),
            Call::Rounds => build.rounds(pipe, buffer),
        }
    }
}

pub fn tree_of(rt: &HostRuntime, script: &str) -> Result<Tree, Fail> {
    let mut tree = Tree::new(rt.alloc())?;
    read_script(&mut tree, rt.alloc(), script.as_bytes())?;
    Ok(tree)
}

pub fn pipe_of(tokens: &[u8]) -> Result<Pipe, Fail> {
    let mut pipe = Pipe::new();
    pipe.fill(tokens)?;
    Ok(pipe)
}

// What the build has written into the buffer.
pub fn written<'a>(rt: &impl Abort, build: &Build, buffer: &'a [u8]) -> &'a [u8] {
    let len = build.written_len();
    assert!(rt; len <= buffer.len());
    &buffer[..len]
}
