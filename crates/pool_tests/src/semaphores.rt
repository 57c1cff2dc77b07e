// Semaphores.
use crate::walk::Call::*;
use crate::walk::{refusal_number, walk};
use semaphore::Semaphore;

#[test]
fn every_token_is_a_plus(rt: HostRuntime) {
    let mut semaphore = Semaphore::new();
    walk(
        &rt,
        &mut semaphore,
        &[Totals(0, 0), Take(None), Put(43, Some(11))],
    );
    assert!(rt; semaphore.fill(2).is_ok());
    walk(
        &rt,
        &mut semaphore,
        &[
            Counts(43, 2, 0),
            Counts(120, 0, 0),
            Take(Some(43)),
            Put(120, Some(11)),
            Counts(43, 1, 1),
            Load(100_000, None),
            Load(100_001, Some(12)),
            Totals(1, 1),
            Take(Some(43)),
            Take(None),
            Put(43, None),
            Put(43, None),
            Put(43, Some(11)),
            Totals(0, 2),
        ],
    );
}

#[test]
fn at_most_63_tokens(rt: HostRuntime) {
    let mut semaphore = Semaphore::new();
    assert!(rt; semaphore.fill(63).is_ok());
    walk(&rt, &mut semaphore, &[Totals(0, 63), Take(Some(43))]);
    assert_eq!(rt; refusal_number(semaphore.fill(64)), Some(13));
    walk(&rt, &mut semaphore, &[Totals(1, 62)]);
    assert!(rt; semaphore.fill(0).is_ok());
    walk(
        &rt,
        &mut semaphore,
        &[Totals(0, 0), Put(43, Some(11)), Take(None)],
    );
}
