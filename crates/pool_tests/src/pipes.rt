// Pipes.
use crate::walk::Call::*;
use crate::walk::{pipe_of, refusal_number, walk};
use pipe::Pipe;
use pool::{Lender, Pool};

// 63 bytes, each another
const FULL: [u8; 63] = *b"0123456789abcdefghijklmnopqrstuvwxyzABCDEFGHIJKLMNOPQRSTUVWXYZ+";

const TOO_MANY: [u8; 64] = *b"0123456789abcdefghijklmnopqrstuvwxyzABCDEFGHIJKLMNOPQRSTUVWXYZ+-";

#[test]
fn a_new_pipe_is_empty(rt: HostRuntime) {
    let mut pipe = Pipe::new();
    walk(
        &rt,
        &mut pipe,
        &[Totals(0, 0), Take(None), Put(0, Some(11)), Totals(0, 0)],
    );
}

#[test]
fn bytes_leave_as_they_entered_and_may_repeat(rt: HostRuntime) {
    let mut pipe = pipe_of(&rt, b"xyx");
    walk(
        &rt,
        &mut pipe,
        &[
            Counts(b'x', 2, 0),
            Counts(b'y', 1, 0),
            Totals(0, 3),
            Take(Some(b'x')),
            Counts(b'x', 1, 1),
            Take(Some(b'y')),
            Put(b'z', Some(11)),
            Put(b'x', None),
            Put(b'x', Some(11)),
            Totals(1, 2),
            Take(Some(b'x')),
            Take(Some(b'x')),
            Take(None),
            Put(b'y', None),
            Put(b'x', None),
            Take(Some(b'y')),
            Counts(b'y', 0, 1),
            Totals(2, 1),
        ],
    );
}

#[test]
fn readings_change_nothing(rt: HostRuntime) {
    let mut pipe = pipe_of(&rt, b"ab");
    walk(
        &rt,
        &mut pipe,
        &[
            Load(100_000, None),
            Totals(0, 2),
            Load(100_001, Some(12)),
            Load(u32::MAX, Some(12)),
            Totals(0, 2),
            Take(Some(b'a')),
        ],
    );
}

// A full pipe is emptied and refilled from another slot of its ring each time, so that its tokens pass the ring's end.
#[test]
fn a_full_pipe_goes_round(rt: HostRuntime) {
    let mut pipe = pipe_of(&rt, &FULL);
    let mut line = FULL;
    for _ in 0..5 {
        assert_eq!(rt; pipe.ready(), 63);
        for b in line {
            assert_eq!(rt; pipe.take(), Some(b));
        }
        assert_eq!(rt; pipe.take(), None);
        assert_eq!(rt; pipe.total_out(), 63);
        for b in line {
            assert!(rt; pipe.put(b).is_ok());
        }
        assert_eq!(rt; pipe.take(), Some(line[0]));
        assert!(rt; pipe.put(line[0]).is_ok());
        line.rotate_left(1);
    }
}

#[test]
fn sixty_four_tokens_are_refused(rt: HostRuntime) {
    let mut pipe = pipe_of(&rt, b"ab");
    assert_eq!(rt; pipe.take(), Some(b'a'));
    assert_eq!(rt; refusal_number(pipe.fill(&TOO_MANY)), Some(13));
    walk(
        &rt,
        &mut pipe,
        &[
            Counts(b'a', 0, 1),
            Counts(b'b', 1, 0),
            Totals(1, 1),
            Take(Some(b'b')),
        ],
    );
}

#[test]
fn filling_anew_forgets_what_was_out(rt: HostRuntime) {
    let mut pipe = pipe_of(&rt, b"ab");
    assert_eq!(rt; pipe.take(), Some(b'a'));
    assert!(rt; pipe.fill(b"c").is_ok());
    walk(
        &rt,
        &mut pipe,
        &[
            Totals(0, 1),
            Put(b'a', Some(11)),
            Counts(b'b', 0, 0),
            Take(Some(b'c')),
        ],
    );
    assert!(rt; pipe.fill(b"").is_ok());
    walk(
        &rt,
        &mut pipe,
        &[Totals(0, 0), Put(b'c', Some(11)), Take(None)],
    );
}
