// Calls on another pool, another buffer and another tree than those of the open before, and the largest builds.
use crate::calls::{pipe_of, tree_of, written};
use build::Build;
use layers::LoadLimit;
use pool::{Lender, Pool};
use rules::Refusal;
use std::test::Fail;

// 7 + 12 for each of 4 nodes + 2 for each of 3 steps.
const NEEDED: usize = 61;

const JOBS: &str = "job a 1\njob b 1\njob c 1\n";

// A pool of which the token in hand is out serves as well; from then on the token is missing from the first.
#[test]
fn another_pool(rt: HostRuntime) -> Result<(), Fail> {
    let tree = tree_of(&rt, JOBS)?;
    let mut build = Build::new(rt.alloc())?;
    let mut buffer = [0; NEEDED];
    let mut first = pipe_of(b"x")?;
    assert_eq!(rt; build.open(&tree, false, &mut first, &mut buffer), Ok(2));
    let mut second = pipe_of(b"xz")?;
    assert_eq!(rt;
        build.step(1, &mut second, &mut buffer),
        Err(Refusal::TokensMissing)
    );
    assert_eq!(rt; second.take(), Some(b'x'));
    assert_eq!(rt; build.step(1, &mut second, &mut buffer), Ok(2));
    assert_eq!(rt; (second.count_in(b'x'), second.count_out(b'z')), (1, 1));
    assert_eq!(rt; first.count_out(b'x'), 1);
    assert_eq!(rt;
        build.poll(&mut first, &mut buffer),
        Err(Refusal::TokensMissing)
    );
    assert_eq!(rt;
        written(&rt, &build, &buffer),
        b"O\x02\x00\x04A\x00\x01T\x00\x02xS\x01E\x01R\x00xT\x00\x03z".as_slice()
    );
    Ok(())
}

// What stands before the records of the second step below, these records, and what stands behind them.
fn parts(buffer: &[u8; NEEDED]) -> (&[u8], &[u8], &[u8]) {
    (&buffer[..14], &buffer[14..21], &buffer[21..])
}

// A second buffer gets the records from where the first one ends.
#[test]
fn another_buffer(rt: HostRuntime) -> Result<(), Fail> {
    let tree = tree_of(&rt, JOBS)?;
    let mut build = Build::new(rt.alloc())?;
    let mut pipe = pipe_of(b"")?;
    let mut first = [7; NEEDED];
    build.open(&tree, false, &mut pipe, &mut first)?;
    build.step(1, &mut pipe, &mut first)?;
    assert_eq!(rt; build.written_len(), 14);
    let kept = first;
    let mut second = [7; NEEDED];
    assert_eq!(rt; build.step(2, &mut pipe, &mut second), Ok(1));
    assert_eq!(rt; build.written_len(), 21);
    assert_eq!(rt; &first, &kept);
    assert_eq!(rt;
        parts(&first).0,
        b"O\x01\x00\x04A\x00\x01S\x01E\x01A\x00\x02".as_slice()
    );
    let (before, records, behind) = parts(&second);
    assert!(rt; before.iter().all(|byte| *byte == 7));
    assert_eq!(rt; records, b"S\x02E\x02A\x00\x03".as_slice());
    assert!(rt; behind.iter().all(|byte| *byte == 7));
    Ok(())
}

// An open replaces an unfinished build.
#[test]
fn open_over_unfinished(rt: HostRuntime) -> Result<(), Fail> {
    let mut build = Build::new(rt.alloc())?;
    let mut buffer = [0; NEEDED];
    let mut first = pipe_of(b"x")?;
    build.open(&tree_of(&rt, JOBS)?, false, &mut first, &mut buffer)?;
    let mut second = pipe_of(b"")?;
    let tree = tree_of(&rt, "fail a 1\n")?;
    assert_eq!(rt; build.open(&tree, true, &mut second, &mut buffer), Ok(1));
    assert!(rt; !build.is_finished());
    assert_eq!(rt; build.needed_len(), 33);
    assert_eq!(rt; build.step(1, &mut second, &mut buffer), Ok(0));
    assert!(rt; build.is_finished());
    assert_eq!(rt;
        written(&rt, &build, &buffer),
        b"O\x01\x01\x02A\x00\x01S\x01F\x01\x01F\x00\x03D\x01".as_slice()
    );
    Ok(())
}

// 64 jobs under the top make, and 63 tokens that all differ: the newest one goes back first.
#[test]
fn sixty_three_tokens(rt: HostRuntime) -> Result<(), Fail> {
    let mut script = String::new(rt.alloc());
    let mut tokens = Vec::new(rt.alloc());
    let mut expected = Vec::new(rt.alloc());
    script.push_str("job a 1\n")?;
    expected.extend_from_slice(b"O\x40\x00\x41A\x00\x01")?;
    for (child, byte) in (2u8..65).zip(33u8..96) {
        script.push_str("job a 1\n")?;
        tokens.push(byte)?;
        expected.extend_from_slice(&[b'T', 0, child, byte])?;
    }
    for (job, byte) in (1u8..64).zip((33u8..96).rev()) {
        expected.extend_from_slice(&[b'S', job, b'E', job, b'R', 0, byte])?;
    }
    expected.extend_from_slice(b"S\x40E\x40E\x00D\x00")?;
    let tree = tree_of(&rt, script.as_str())?;
    let mut pipe = pipe_of(tokens.as_slice())?;
    let mut build = Build::new(rt.alloc())?;
    // 7 + 12 for each of 65 nodes + 2 for each of 64 steps
    let mut buffer = [0; 915];
    assert_eq!(rt; build.open(&tree, false, &mut pipe, &mut buffer), Ok(64));
    for job in 1u32..65 {
        assert_eq!(rt; build.step(job, &mut pipe, &mut buffer), Ok(64 - job));
    }
    assert!(rt; build.is_finished());
    assert_eq!(rt; pipe.ready(), 63);
    assert_eq!(rt; written(&rt, &build, &buffer), expected.as_slice());
    Ok(())
}

// Where nothing is ever ready, the implicit slots do all the work.
#[test]
fn a_load_limit_that_forbids_all(rt: HostRuntime) -> Result<(), Fail> {
    let tree = tree_of(&rt, JOBS)?;
    let mut build = Build::new(rt.alloc())?;
    let mut buffer = [0; NEEDED];
    let mut pool = LoadLimit::new(pipe_of(b"xy")?, 1);
    pool.load(100)?;
    assert_eq!(rt; build.open(&tree, false, &mut pool, &mut buffer), Ok(1));
    assert_eq!(rt; build.rounds(&mut pool, &mut buffer), Ok(3));
    assert_eq!(rt; pool.total_out(), 0);
    assert_eq!(rt;
        written(&rt, &build, &buffer),
        b"O\x03\x00\x04A\x00\x01S\x01E\x01A\x00\x02S\x02E\x02A\x00\x03S\x03E\x03E\x00D\x00".as_slice()
    );
    Ok(())
}

// As many jobs as a tree can have, one after the other.
#[test]
fn a_hundred_and_ninety_nine_jobs(rt: HostRuntime) -> Result<(), Fail> {
    let mut script = String::new(rt.alloc());
    let mut expected = Vec::new(rt.alloc());
    expected.extend_from_slice(b"O\x01\x00\xc8")?;
    for job in 1u8..200 {
        script.push_str("job a 1\n")?;
        expected.extend_from_slice(&[b'A', 0, job, b'S', job, b'E', job])?;
    }
    expected.extend_from_slice(b"E\x00D\x00")?;
    let tree = tree_of(&rt, script.as_str())?;
    let mut pipe = pipe_of(b"")?;
    let mut build = Build::new(rt.alloc())?;
    // 7 + 12 for each of 200 nodes + 2 for each of 199 steps
    let mut buffer = [0; 2805];
    build.open(&tree, false, &mut pipe, &mut buffer)?;
    assert_eq!(rt; build.rounds(&mut pipe, &mut buffer), Ok(199));
    assert_eq!(rt; written(&rt, &build, &buffer), expected.as_slice());
    Ok(())
}
