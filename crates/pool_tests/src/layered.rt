// Quotas and load limits over pools and over each other.
use crate::walk::Call::*;
use crate::walk::{pipe_of, walk};
use layers::{LoadLimit, Quota};
use semaphore::Semaphore;

#[test]
fn a_quota_bounds_what_is_out(rt: HostRuntime) {
    let mut none = Quota::new(pipe_of(&rt, b"xy"), 0);
    walk(
        &rt,
        &mut none,
        &[Totals(0, 0), Take(None), Counts(b'x', 1, 0)],
    );
    let mut one = Quota::new(pipe_of(&rt, b"xy"), 1);
    walk(
        &rt,
        &mut one,
        &[
            Totals(0, 1),
            Take(Some(b'x')),
            Totals(1, 0),
            Take(None),
            Put(b'y', Some(11)),
            Put(b'x', None),
            Take(Some(b'y')),
            Take(None),
        ],
    );
    // a quota above 63 is one of 63, which no pool can reach
    let mut wide = Quota::new(pipe_of(&rt, b"xy"), 1000);
    walk(
        &rt,
        &mut wide,
        &[Totals(0, 2), Take(Some(b'x')), Take(Some(b'y')), Take(None)],
    );
}

#[test]
fn a_load_limit_heeds_the_last_reading(rt: HostRuntime) {
    let mut limit = LoadLimit::new(pipe_of(&rt, b"xy"), 150);
    walk(
        &rt,
        &mut limit,
        &[
            Totals(0, 2),
            Load(150, None),
            Totals(0, 0),
            Take(None),
            Load(149, None),
            Take(Some(b'x')),
            Load(100_000, None),
            Put(b'x', None),
            Totals(0, 0),
            Load(100_001, Some(12)),
            Totals(0, 0),
            Load(0, None),
            Load(100_001, Some(12)),
            Totals(0, 2),
        ],
    );
}

#[test]
fn a_load_limit_is_taken_into_its_range(rt: HostRuntime) {
    // a limit of 0 is one of 1: the reading 0, which none has come before, is under it
    let mut least = LoadLimit::new(pipe_of(&rt, b"x"), 0);
    walk(
        &rt,
        &mut least,
        &[
            Totals(0, 1),
            Load(1, None),
            Totals(0, 0),
            Load(0, None),
            Totals(0, 1),
        ],
    );
    // a limit above 100,000 is one of 100,000, which a reading can reach
    let mut most = LoadLimit::new(pipe_of(&rt, b"x"), u32::MAX);
    walk(
        &rt,
        &mut most,
        &[
            Load(99_999, None),
            Totals(0, 1),
            Load(100_000, None),
            Totals(0, 0),
        ],
    );
}

#[test]
fn a_quota_over_a_limit_over_a_pipe(rt: HostRuntime) {
    let mut pool = Quota::new(LoadLimit::new(pipe_of(&rt, b"xyz"), 200), 2);
    walk(
        &rt,
        &mut pool,
        &[
            Totals(0, 2),
            Take(Some(b'x')),
            Load(200, None),
            Totals(1, 0),
            Take(None),
            Load(199, None),
            Take(Some(b'y')),
            Take(None),
            Totals(2, 0),
            Put(b'x', None),
            Totals(1, 1),
            Take(Some(b'z')),
        ],
    );
}

#[test]
fn a_limit_over_a_quota_over_a_semaphore(rt: HostRuntime) {
    let mut semaphore = Semaphore::new();
    assert!(rt; semaphore.fill(3).is_ok());
    let mut pool = LoadLimit::new(Quota::new(semaphore, 2), 200);
    walk(
        &rt,
        &mut pool,
        &[
            Totals(0, 2),
            Take(Some(43)),
            Load(200, None),
            Totals(1, 0),
            Take(None),
            Load(199, None),
            Totals(1, 1),
            Take(Some(43)),
            Take(None),
            Put(43, None),
            Totals(1, 1),
        ],
    );
}
