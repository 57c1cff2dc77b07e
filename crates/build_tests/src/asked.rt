// What a build answers: of each node its state and its hand, and the faults of those that failed.
use crate::calls::{Call, FAILURES, WORKED, pipe_of, tree_of};
use build::{Build, Fault};
use rules::State;
use schedule::cause::Cause;
use std::alloc::Global;
use std::process::Abort;
use std::test::Fail;
use tree::Unanswered;

const LONGEST: usize = 113;

// The cause, the job, its level, the steps that it had done, and the tokens of its make just before.
struct Told {
    cause: Cause,
    node: u32,
    level: u32,
    done: u32,
    tokens: &'static [u8],
}

// What an open on a pipe of these tokens and the calls leave: the faults of these nodes, none for those that did not fail.
struct Row {
    script: &'static str,
    tokens: &'static [u8],
    keep: bool,
    calls: &'static [Call],
    faults: &'static [(u32, Option<Told>)],
}

const FIRST_KILLED: Told = Told {
    cause: Cause::Kill,
    node: 1,
    level: 0,
    done: 0,
    tokens: b"x",
};

const FIRST_HALTED: Told = Told {
    cause: Cause::Halt,
    node: 1,
    level: 0,
    done: 1,
    tokens: b"x",
};

const THIRD_HALTED: Told = Told {
    cause: Cause::Halt,
    node: 3,
    level: 1,
    done: 0,
    tokens: b"y",
};

const FOURTH_HALTED: Told = Told {
    cause: Cause::Halt,
    node: 4,
    level: 1,
    done: 0,
    tokens: b"",
};

const THIRD: Told = Told {
    cause: Cause::Script,
    node: 3,
    level: 2,
    done: 1,
    tokens: b"",
};

const FIFTH: Told = Told {
    cause: Cause::Script,
    node: 5,
    level: 1,
    done: 1,
    tokens: b"q",
};

const SEVENTH: Told = Told {
    cause: Cause::Script,
    node: 7,
    level: 0,
    done: 1,
    tokens: b"pq",
};

const ROWS: [Row; 3] = [
    // the make of the killed job is marked and still live, so it has no fault yet
    Row {
        script: WORKED,
        tokens: b"xy",
        keep: false,
        calls: &[Call::Kill(1)],
        faults: &[
            (1, Some(FIRST_KILLED)),
            (0, None),
            (2, None),
            (3, None),
            (6, None),
        ],
    },
    Row {
        script: WORKED,
        tokens: b"xy",
        keep: false,
        calls: &[Call::Step(1), Call::Halt],
        faults: &[
            (0, Some(FIRST_HALTED)),
            (1, Some(FIRST_HALTED)),
            (2, Some(THIRD_HALTED)),
            (3, Some(THIRD_HALTED)),
            (4, Some(FOURTH_HALTED)),
            (5, None),
            (6, None),
        ],
    },
    // first in time, and not by number: 7 before make 1, and 5 before make 2
    Row {
        script: FAILURES,
        tokens: b"pq",
        keep: true,
        calls: &[
            Call::Step(7),
            Call::Step(3),
            Call::Step(5),
            Call::Step(4),
            Call::Step(6),
        ],
        faults: &[
            (0, Some(SEVENTH)),
            (1, Some(FIFTH)),
            (2, Some(THIRD)),
            (3, Some(THIRD)),
            (4, None),
            (5, Some(FIFTH)),
            (6, None),
            (7, Some(SEVENTH)),
        ],
    },
];

// A build after these calls.
fn made(rt: &HostRuntime, row: &Row) -> Result<Build, Fail> {
    let tree = tree_of(rt, row.script)?;
    let mut pipe = pipe_of(row.tokens)?;
    let mut buffer = [0; LONGEST];
    let mut build = Build::new(rt.alloc())?;
    build.open(&tree, row.keep, &mut pipe, &mut buffer)?;
    for call in row.calls {
        call.carry_out(&mut build, &mut pipe, &mut buffer)?;
    }
    Ok(build)
}

// What stands in the place.
fn compare(rt: &impl Abort, place: &Fault, told: &Told) {
    assert_eq!(rt; place.cause, told.cause);
    assert_eq!(rt; place.node, told.node);
    assert_eq!(rt; place.level, told.level);
    assert_eq!(rt; place.done, told.done);
    assert_eq!(rt; place.tokens.as_slice(), told.tokens);
}

// What stands in a new place, and still does where there is no fault.
const NOTHING: Told = Told {
    cause: Cause::Script,
    node: 0,
    level: 0,
    done: 0,
    tokens: b"",
};

#[test]
fn faults(rt: HostRuntime) -> Result<(), Fail> {
    for row in &ROWS {
        let build = made(&rt, row)?;
        for (node, told) in row.faults {
            let mut place = Fault::new(rt.alloc());
            assert_eq!(rt;
                build.fault(rt.alloc(), *node, &mut place),
                Ok(told.is_some())
            );
            compare(&rt, &place, told.as_ref().unwrap_or(&NOTHING));
        }
    }
    Ok(())
}

// What is answered of a node.
struct Asked {
    node: u32,
    state: &'static str,
    done: u32,
    children: u32,
    startable: Option<u32>,
    held: &'static [u8],
}

fn word_of(state: State) -> &'static str {
    match state {
        State::Waiting => "waiting",
        State::Running => "running",
        State::Good => "good",
        State::Failed(_) => "failed",
    }
}

// The worked build after job 3: it has ended, and its token has started job 5.
const STEPPED: Row = Row {
    script: WORKED,
    tokens: b"xy",
    keep: false,
    calls: &[Call::Step(1), Call::Step(3)],
    faults: &[],
};

const STEPPED_ASKED: [Asked; 6] = [
    Asked {
        node: 0,
        state: "running",
        done: 0,
        children: 2,
        startable: None,
        held: b"x",
    },
    Asked {
        node: 1,
        state: "running",
        done: 1,
        children: 0,
        startable: None,
        held: b"",
    },
    Asked {
        node: 2,
        state: "running",
        done: 0,
        children: 2,
        startable: None,
        held: b"y",
    },
    Asked {
        node: 3,
        state: "good",
        done: 1,
        children: 0,
        startable: None,
        held: b"",
    },
    Asked {
        node: 5,
        state: "running",
        done: 0,
        children: 0,
        startable: None,
        held: b"",
    },
    Asked {
        node: 6,
        state: "waiting",
        done: 0,
        children: 0,
        startable: None,
        held: b"",
    },
];

// The same just opened: make 2 could start job 5, and make 0 is held by the wait before job 6.
const OPENED: Row = Row {
    script: WORKED,
    tokens: b"xy",
    keep: false,
    calls: &[],
    faults: &[],
};

const OPENED_ASKED: [Asked; 2] = [
    Asked {
        node: 0,
        state: "running",
        done: 0,
        children: 2,
        startable: None,
        held: b"x",
    },
    Asked {
        node: 2,
        state: "running",
        done: 0,
        children: 2,
        startable: Some(5),
        held: b"y",
    },
];

// Job 1 killed: make 0 is marked and starts nothing, and its token has started job 5 for make 2.
const KILLED: Row = Row {
    script: WORKED,
    tokens: b"xy",
    keep: false,
    calls: &[Call::Kill(1)],
    faults: &[],
};

const KILLED_ASKED: [Asked; 3] = [
    Asked {
        node: 0,
        state: "running",
        done: 0,
        children: 1,
        startable: None,
        held: b"",
    },
    Asked {
        node: 1,
        state: "failed",
        done: 0,
        children: 0,
        startable: None,
        held: b"",
    },
    Asked {
        node: 2,
        state: "running",
        done: 0,
        children: 3,
        startable: None,
        held: b"yx",
    },
];

fn answers(rt: &impl Abort, heap: Global, build: &Build, asked: &Asked) -> Result<(), Fail> {
    assert_eq!(rt; word_of(build.state(asked.node)?), asked.state);
    assert_eq!(rt; build.steps_done(asked.node), Ok(asked.done));
    assert_eq!(rt; build.running_children(asked.node), Ok(asked.children));
    assert_eq!(rt; build.startable_child(asked.node), Ok(asked.startable));
    let held = build.held_tokens(heap, asked.node)?;
    assert_eq!(rt; held.as_slice(), asked.held);
    Ok(())
}

// All three have three jobs running.
#[test]
fn questions(rt: HostRuntime) -> Result<(), Fail> {
    let tables: [(&Row, &[Asked]); 3] = [
        (&OPENED, &OPENED_ASKED),
        (&STEPPED, &STEPPED_ASKED),
        (&KILLED, &KILLED_ASKED),
    ];
    for (row, table) in tables {
        let build = made(&rt, row)?;
        assert_eq!(rt; build.running_jobs(), 3);
        for asked in table {
            answers(&rt, rt.alloc(), &build, asked)?;
        }
    }
    Ok(())
}

// A node that is not in the tree is refused by every question, and the place for a fault stays as it was.
#[test]
fn outside_the_tree(rt: HostRuntime) -> Result<(), Fail> {
    let build = made(&rt, &KILLED)?;
    let mut place = Fault::new(rt.alloc());
    assert_eq!(rt; build.fault(rt.alloc(), 1, &mut place), Ok(true));
    for node in [7, 200, 4_294_967_295] {
        let refused = Unanswered::NotInTree;
        assert_eq!(rt; refused.number(), Some(21));
        assert_eq!(rt; build.state(node).err(), Some(refused));
        assert_eq!(rt; build.steps_done(node), Err(refused));
        assert_eq!(rt; build.running_children(node), Err(refused));
        assert_eq!(rt; build.startable_child(node), Err(refused));
        assert_eq!(rt; build.held_tokens(rt.alloc(), node).err(), Some(refused));
        assert_eq!(rt; build.fault(rt.alloc(), node, &mut place), Err(refused));
        compare(&rt, &place, &FIRST_KILLED);
    }
    Ok(())
}

// A build that was never opened: two nodes, and both wait.
#[test]
fn a_fresh_build(rt: HostRuntime) -> Result<(), Fail> {
    let build = Build::new(rt.alloc())?;
    let mut place = Fault::new(rt.alloc());
    assert_eq!(rt; build.running_jobs(), 0);
    for node in 0u32..2 {
        assert_eq!(rt; word_of(build.state(node)?), "waiting");
        assert_eq!(rt; build.steps_done(node), Ok(0));
        assert_eq!(rt; build.fault(rt.alloc(), node, &mut place), Ok(false));
    }
    assert_eq!(rt;
        build.fault(rt.alloc(), 2, &mut place),
        Err(Unanswered::NotInTree)
    );
    Ok(())
}
