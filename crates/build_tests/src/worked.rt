// Whole rows of calls on trees of several shapes, the worked builds first.
use crate::calls::{Call, FAILURES, WORKED, pipe_of, tree_of, written};
use build::Build;
use std::test::Fail;

// Makes alone under the top make.
const MAKES: &str = "make a\njob b 1\ndone\nmake c\njob d 2\ndone\n";

// As deep as a tree can be.
const DEEP: &str =
    "make a\nmake b\nmake c\nmake d\nmake e\nmake f\nmake g\njob h 1\ndone\ndone\ndone\ndone\ndone\ndone\ndone\n";

// The longest of the buffers: 7 + 12 for each of 9 nodes + 2 for one step.
const LONGEST: usize = 117;

// A tree, how long its buffer is, what is written by an open on a pipe of these tokens and the calls, what the last of them
// answers, and whether the build is finished.
struct Row {
    script: &'static str,
    needed: usize,
    tokens: &'static [u8],
    keep: bool,
    calls: &'static [Call],
    written: &'static [u8],
    answer: u32,
    finished: bool,
}

const ROWS: [Row; 17] = [
    Row {
        script: WORKED,
        needed: 105,
        tokens: b"xy",
        keep: false,
        calls: &[],
        written: b"O\x03\x00\x07A\x00\x01T\x00\x02xA\x02\x03T\x02\x04y",
        answer: 3,
        finished: false,
    },
    Row {
        script: WORKED,
        needed: 105,
        tokens: b"xy",
        keep: false,
        calls: &[
            Call::Step(1),
            Call::Step(3),
            Call::Step(4),
            Call::Step(1),
            Call::Step(4),
            Call::Step(5),
        ],
        written: b"O\x03\x00\x07A\x00\x01T\x00\x02xA\x02\x03T\x02\x04yS\x01S\x03E\x03R\x02yT\x02\x05yS\x04S\x01E\x01R\x00xS\x04F\x04\x01R\x02yS\x05E\x05F\x02\x03F\x00\x03D\x01",
        answer: 0,
        finished: true,
    },
    Row {
        script: WORKED,
        needed: 105,
        tokens: b"xy",
        keep: true,
        calls: &[
            Call::Step(1),
            Call::Step(3),
            Call::Step(4),
            Call::Step(1),
            Call::Step(4),
            Call::Step(5),
            Call::Step(6),
        ],
        written: b"O\x03\x01\x07A\x00\x01T\x00\x02xA\x02\x03T\x02\x04yS\x01S\x03E\x03R\x02yT\x02\x05yS\x04S\x01E\x01R\x00xS\x04F\x04\x01R\x02yS\x05E\x05F\x02\x03A\x00\x06S\x06E\x06F\x00\x03D\x01",
        answer: 0,
        finished: true,
    },
    Row {
        script: WORKED,
        needed: 105,
        tokens: b"",
        keep: false,
        calls: &[Call::Step(1), Call::Step(1)],
        written: b"O\x01\x00\x07A\x00\x01S\x01S\x01E\x01A\x00\x02A\x02\x03",
        answer: 1,
        finished: false,
    },
    Row {
        script: WORKED,
        needed: 105,
        tokens: b"xy",
        keep: false,
        calls: &[Call::Halt],
        written: b"O\x03\x00\x07A\x00\x01T\x00\x02xA\x02\x03T\x02\x04yHF\x01\x04R\x00xF\x03\x04R\x02yF\x04\x04F\x02\x03F\x00\x03D\x01",
        answer: 0,
        finished: true,
    },
    Row {
        script: WORKED,
        needed: 105,
        tokens: b"xy",
        keep: false,
        calls: &[Call::Kill(1)],
        written: b"O\x03\x00\x07A\x00\x01T\x00\x02xA\x02\x03T\x02\x04yK\x01F\x01\x02R\x00xT\x02\x05x",
        answer: 3,
        finished: false,
    },
    Row {
        script: WORKED,
        needed: 105,
        tokens: b"xy",
        keep: false,
        calls: &[Call::Poll],
        written: b"O\x03\x00\x07A\x00\x01T\x00\x02xA\x02\x03T\x02\x04y",
        answer: 3,
        finished: false,
    },
    // a halt while all running children of the top make are makes
    Row {
        script: MAKES,
        needed: 73,
        tokens: b"xy",
        keep: false,
        calls: &[Call::Halt],
        written: b"O\x03\x00\x05A\x00\x01A\x01\x02T\x00\x03xA\x03\x04HF\x02\x04F\x01\x03R\x00xF\x04\x04F\x03\x03F\x00\x03D\x01",
        answer: 0,
        finished: true,
    },
    // failures on three levels, one job after the other
    Row {
        script: FAILURES,
        needed: 113,
        tokens: b"",
        keep: true,
        calls: &[
            Call::Step(3),
            Call::Step(4),
            Call::Step(5),
            Call::Step(6),
            Call::Step(7),
        ],
        written: b"O\x01\x01\x08A\x00\x01A\x01\x02A\x02\x03S\x03F\x03\x01A\x02\x04S\x04E\x04F\x02\x03A\x01\x05S\x05F\x05\x01F\x01\x03A\x00\x06S\x06E\x06A\x00\x07S\x07F\x07\x01F\x00\x03D\x01",
        answer: 0,
        finished: true,
    },
    // the same with two tokens, from the top level down
    Row {
        script: FAILURES,
        needed: 113,
        tokens: b"pq",
        keep: true,
        calls: &[
            Call::Step(7),
            Call::Step(3),
            Call::Step(5),
            Call::Step(4),
            Call::Step(6),
        ],
        written: b"O\x03\x01\x08A\x00\x01A\x01\x02A\x02\x03T\x00\x06pT\x00\x07qS\x07F\x07\x01R\x00qT\x01\x05qS\x03F\x03\x01A\x02\x04S\x05F\x05\x01R\x01qS\x04E\x04F\x02\x03F\x01\x03R\x00pS\x06E\x06F\x00\x03D\x01",
        answer: 0,
        finished: true,
    },
    // makes on eight levels end one after the other
    Row {
        script: DEEP,
        needed: 117,
        tokens: b"",
        keep: false,
        calls: &[Call::Step(8)],
        written: b"O\x01\x00\x09A\x00\x01A\x01\x02A\x02\x03A\x03\x04A\x04\x05A\x05\x06A\x06\x07A\x07\x08S\x08E\x08E\x07E\x06E\x05E\x04E\x03E\x02E\x01E\x00D\x00",
        answer: 0,
        finished: true,
    },
    // the same by rounds
    Row {
        script: WORKED,
        needed: 105,
        tokens: b"xy",
        keep: false,
        calls: &[Call::Rounds],
        written: b"O\x03\x00\x07A\x00\x01T\x00\x02xA\x02\x03T\x02\x04yS\x01S\x03E\x03R\x02yT\x02\x05yS\x04S\x01E\x01R\x00xS\x04F\x04\x01R\x02yS\x05E\x05F\x02\x03F\x00\x03D\x01",
        answer: 6,
        finished: true,
    },
    Row {
        script: WORKED,
        needed: 105,
        tokens: b"xy",
        keep: true,
        calls: &[Call::Rounds],
        written: b"O\x03\x01\x07A\x00\x01T\x00\x02xA\x02\x03T\x02\x04yS\x01S\x03E\x03R\x02yT\x02\x05yS\x04S\x01E\x01R\x00xS\x04F\x04\x01R\x02yS\x05E\x05F\x02\x03A\x00\x06S\x06E\x06F\x00\x03D\x01",
        answer: 7,
        finished: true,
    },
    // one job after the other
    Row {
        script: WORKED,
        needed: 105,
        tokens: b"",
        keep: false,
        calls: &[Call::Rounds],
        written: b"O\x01\x00\x07A\x00\x01S\x01S\x01E\x01A\x00\x02A\x02\x03S\x03E\x03A\x02\x04S\x04S\x04F\x04\x01F\x02\x03F\x00\x03D\x01",
        answer: 5,
        finished: true,
    },
    // the job that the step has started is in the first round
    Row {
        script: WORKED,
        needed: 105,
        tokens: b"xy",
        keep: false,
        calls: &[Call::Step(3), Call::Rounds],
        written: b"O\x03\x00\x07A\x00\x01T\x00\x02xA\x02\x03T\x02\x04yS\x03E\x03R\x02yT\x02\x05yS\x01S\x04S\x05E\x05R\x02yS\x01E\x01R\x00xS\x04F\x04\x01F\x02\x03F\x00\x03D\x01",
        answer: 5,
        finished: true,
    },
    Row {
        script: FAILURES,
        needed: 113,
        tokens: b"",
        keep: true,
        calls: &[Call::Rounds],
        written: b"O\x01\x01\x08A\x00\x01A\x01\x02A\x02\x03S\x03F\x03\x01A\x02\x04S\x04E\x04F\x02\x03A\x01\x05S\x05F\x05\x01F\x01\x03A\x00\x06S\x06E\x06A\x00\x07S\x07F\x07\x01F\x00\x03D\x01",
        answer: 5,
        finished: true,
    },
    // jobs that start in a round wait for the next one
    Row {
        script: FAILURES,
        needed: 113,
        tokens: b"pq",
        keep: true,
        calls: &[Call::Rounds],
        written: b"O\x03\x01\x08A\x00\x01A\x01\x02A\x02\x03T\x00\x06pT\x00\x07qS\x03F\x03\x01A\x02\x04S\x06E\x06R\x00qT\x01\x05qS\x07F\x07\x01R\x00pS\x04E\x04F\x02\x03R\x01qS\x05F\x05\x01F\x01\x03F\x00\x03D\x01",
        answer: 5,
        finished: true,
    },
];

#[test]
fn each_row(rt: HostRuntime) -> Result<(), Fail> {
    for row in &ROWS {
        let tree = tree_of(&rt, row.script)?;
        let mut pipe = pipe_of(row.tokens)?;
        let mut buffer = [0; LONGEST];
        let mut build = Build::new(rt.alloc())?;
        assert!(rt; build.is_finished());
        assert!(rt; row.needed <= LONGEST);
        let mut answer = build.open(&tree, row.keep, &mut pipe, &mut buffer[..row.needed])?;
        assert_eq!(rt; build.needed_len(), row.needed);
        for call in row.calls {
            answer = call.carry_out(&mut build, &mut pipe, &mut buffer[..row.needed])?;
        }
        assert_eq!(rt; answer, row.answer);
        assert_eq!(rt; build.is_finished(), row.finished);
        assert_eq!(rt; written(&rt, &build, &buffer), row.written);
    }
    Ok(())
}
