// First lines, accepted and refused.
use decimal::read_count;
use first_line::{PoolChoice, read_first_line};

// The number of the refusal, if the line is refused.
fn refused(line: &[u8]) -> Option<u32> {
    read_first_line(line).err().map(|refusal| refusal.number())
}

// The tokens of the pipe and the count of the semaphore, one of which is nothing so that a row is compared whole, whether to
// keep going, and how many bytes stand behind the line.
fn told(line: &[u8]) -> Option<(&[u8], u32, bool, usize)> {
    let first = read_first_line(line).ok()?;
    let (tokens, count): (&[u8], u32) = match first.pool {
        PoolChoice::Pipe(tokens) => (tokens, 0),
        PoolChoice::Semaphore(count) => (b"", count),
    };
    Some((tokens, count, first.keep, first.rest.len()))
}

#[test]
fn lines_that_are_accepted(rt: HostRuntime) {
    let cases: [(&[u8], (&[u8], u32, bool, usize)); 10] = [
        (b"pipe x\n", (b"x", 0, false, 0)),
        (b"pipe xyx\njob a 1\n", (b"xyx", 0, false, 8)),
        (b"pipe !~ keep\n\n", (b"!~", 0, true, 1)),
        (b"pipe keep\n", (b"keep", 0, false, 0)),
        (b"pipe keep keep\n", (b"keep", 0, true, 0)),
        (
            b"pipe 0123456789abcdefghijklmnopqrstuvwxyzABCDEFGHIJKLMNOPQRSTUVWXYZ+\n",
            (
                b"0123456789abcdefghijklmnopqrstuvwxyzABCDEFGHIJKLMNOPQRSTUVWXYZ+",
                0,
                false,
                0,
            ),
        ),
        (b"sem 1\n", (b"", 1, false, 0)),
        (b"sem 9 keep\n", (b"", 9, true, 0)),
        (b"sem 10\nx", (b"", 10, false, 1)),
        (b"sem 63 keep\n", (b"", 63, true, 0)),
    ];
    for (line, expected) in cases {
        assert_eq!(rt; told(line), Some(expected));
    }
}

#[test]
fn lines_that_are_refused(rt: HostRuntime) {
    let cases: [(&[u8], u32); 28] = [
        (b"", 3),
        (b"\n", 3),
        (b"pipe x", 3),
        (b"pipe\n", 3),
        (b"pipe \n", 3),
        (b"pipe  x\n", 3),
        (b"pipe  keep\n", 3),
        (b" pipe x\n", 3),
        (b"pipe x \n", 3),
        (b"pipe x keep \n", 3),
        (b"pipe x keep keep\n", 3),
        (b"pipe x kept\n", 3),
        (b"pipe x\ty\n", 3),
        (b"pipe x\x7f\n", 3),
        (b"pipes x\n", 3),
        (b"PIPE x\n", 3),
        (b"sem\n", 3),
        (b"sem 1 2\n", 3),
        (b"sem 1\r\n", 3),
        (b"sem 0\n", 5),
        (b"sem 007\n", 5),
        (b"sem 1000\n", 5),
        (b"sem x keep\n", 5),
        (b"sem -1\n", 5),
        (b"sem 64\n", 13),
        (b"sem 999 keep\n", 13),
        (
            b"pipe 0123456789abcdefghijklmnopqrstuvwxyzABCDEFGHIJKLMNOPQRSTUVWXYZ+-\n",
            13,
        ),
        (b"sem 64", 3),
    ];
    for (line, number) in cases {
        assert_eq!(rt; refused(line), Some(number));
    }
}

#[test]
fn counts_have_one_to_three_digits(rt: HostRuntime) {
    let cases: [(&[u8], Option<u32>); 11] = [
        (b"", None),
        (b"0", None),
        (b"1", Some(1)),
        (b"9", Some(9)),
        (b"01", None),
        (b"10", Some(10)),
        (b"1/", None),
        (b"1:", None),
        (b"405", Some(405)),
        (b"999", Some(999)),
        (b"1000", None),
    ];
    for (text, count) in cases {
        assert_eq!(rt; read_count(text), count);
    }
}
