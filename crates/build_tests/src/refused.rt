// Calls that are refused, each with what applies, and that they alter nothing.
use crate::calls::{Call, WORKED, pipe_of, tree_of};
use build::Build;
use pool::{Lender, Pool};
use rules::Refusal;
use std::test::Fail;

// The length for the worked tree: 7 + 12 for each of the 7 nodes + 2 for each of the 7 steps.
const NEEDED: usize = 105;

// An accepted call after the open, if any; then the calls that are refused, on the pool of the open or on an empty pipe, with
// a buffer that is so much shorter than the tree needs.
struct Row {
    before: Option<Call>,
    calls: &'static [Call],
    empty: bool,
    short: usize,
    refusal: Refusal,
}

const ALL: [Call; 5] = [
    Call::Step(1),
    Call::Kill(1),
    Call::Poll,
    Call::Halt,
    Call::Rounds,
];

const ROWS: [Row; 7] = [
    Row {
        before: None,
        calls: &ALL,
        empty: false,
        short: 1,
        refusal: Refusal::ShortBuffer,
    },
    // before anything else is looked at
    Row {
        before: Some(Call::Halt),
        calls: &[
            Call::Step(2),
            Call::Kill(7),
            Call::Poll,
            Call::Halt,
            Call::Rounds,
        ],
        empty: true,
        short: NEEDED,
        refusal: Refusal::ShortBuffer,
    },
    Row {
        before: Some(Call::Halt),
        calls: &ALL,
        empty: true,
        short: 0,
        refusal: Refusal::Finished,
    },
    Row {
        before: None,
        calls: &ALL,
        empty: true,
        short: 0,
        refusal: Refusal::TokensMissing,
    },
    // before the node is looked at
    Row {
        before: None,
        calls: &[Call::Step(2), Call::Kill(4_294_967_295)],
        empty: true,
        short: 0,
        refusal: Refusal::TokensMissing,
    },
    // the top make, a make, a job that waits, numbers outside the tree
    Row {
        before: None,
        calls: &[
            Call::Step(0),
            Call::Step(2),
            Call::Step(6),
            Call::Step(7),
            Call::Step(4_294_967_295),
            Call::Kill(0),
            Call::Kill(2),
            Call::Kill(6),
            Call::Kill(7),
            Call::Kill(4_294_967_295),
        ],
        empty: false,
        short: 0,
        refusal: Refusal::NotRunningJob,
    },
    // a job that has ended
    Row {
        before: Some(Call::Step(3)),
        calls: &[Call::Step(3), Call::Kill(3)],
        empty: false,
        short: 0,
        refusal: Refusal::NotRunningJob,
    },
];

#[test]
fn each_row(rt: HostRuntime) -> Result<(), Fail> {
    let tree = tree_of(&rt, WORKED)?;
    let mut build = Build::new(rt.alloc())?;
    for row in &ROWS {
        let mut pipe = pipe_of(b"xy")?;
        let mut buffer = [0; NEEDED];
        build.open(&tree, false, &mut pipe, &mut buffer)?;
        if let Some(call) = row.before {
            call.carry_out(&mut build, &mut pipe, &mut buffer)?;
        }
        if row.empty {
            pipe = pipe_of(b"")?;
        }
        let kept = buffer;
        let (out, ready, written) = (pipe.total_out(), pipe.ready(), build.written_len());
        for call in row.calls {
            let room = NEEDED.saturating_sub(row.short);
            let answer = call.carry_out(&mut build, &mut pipe, &mut buffer[..room]);
            assert_eq!(rt; answer, Err(row.refusal));
            assert_eq!(rt; &buffer, &kept);
            assert_eq!(rt; (pipe.total_out(), pipe.ready()), (out, ready));
            assert_eq!(rt; build.written_len(), written);
        }
    }
    Ok(())
}

// A build that was never opened is finished, and refuses all calls.
#[test]
fn a_fresh_build(rt: HostRuntime) -> Result<(), Fail> {
    let mut pipe = pipe_of(b"x")?;
    let mut build = Build::new(rt.alloc())?;
    // The length for the worked tree: 7 + 12 for each of 2 nodes + 2 for one step
    assert_eq!(rt; build.needed_len(), 33);
    let mut buffer = [0; 33];
    for call in &ALL {
        let answer = call.carry_out(&mut build, &mut pipe, &mut buffer);
        assert_eq!(rt; answer, Err(Refusal::Finished));
    }
    assert_eq!(rt; build.written_len(), 0);
    Ok(())
}

// An open looks for tokens that are out, and then for the length.
#[test]
fn an_open(rt: HostRuntime) -> Result<(), Fail> {
    let tree = tree_of(&rt, WORKED)?;
    let mut pipe = pipe_of(b"xy")?;
    let mut buffer = [0; NEEDED];
    let mut build = Build::new(rt.alloc())?;
    assert_eq!(rt;
        build.open(&tree, false, &mut pipe, &mut buffer[1..]),
        Err(Refusal::ShortBuffer)
    );
    assert_eq!(rt; build.needed_len(), 33);
    assert_eq!(rt; build.open(&tree, false, &mut pipe, &mut buffer), Ok(3));
    assert_eq!(rt;
        build.open(&tree, false, &mut pipe, &mut buffer),
        Err(Refusal::TokensOut)
    );
    assert_eq!(rt;
        build.open(&tree, true, &mut pipe, &mut buffer[1..]),
        Err(Refusal::TokensOut)
    );
    assert_eq!(rt; build.needed_len(), NEEDED);
    assert!(rt; !build.is_finished());
    Ok(())
}
