// Tools beside the build.
use pipe::Pipe;
use pool::{Lender, Pool};
use tool::{Unreleased, obtain};

// What a tool's steps came to: the byte obtained, and the number of a refused release.
fn borrowed(from: &mut Pipe, to: &mut Pipe) -> (Option<u8>, Option<u32>) {
    let Some(grant) = obtain(from) else {
        return (None, None);
    };
    let byte = grant.byte();
    match grant.release(to) {
        Ok(()) => (Some(byte), None),
        Err(Unreleased { grant, refusal }) => {
            grant.write_off();
            (Some(byte), Some(refusal.number()))
        }
    }
}

#[test]
fn a_grant_goes_back_where_its_byte_is_out(rt: HostRuntime) {
    let mut pipe = Pipe::new();
    let mut other = Pipe::new();
    assert_eq!(rt; borrowed(&mut pipe, &mut other), (None, None));
    assert!(rt; pipe.fill(b"xy").is_ok());
    assert!(rt; other.fill(b"x").is_ok());
    // none of x is out of the other pipe, so it refuses, and the written-off token stays out
    assert_eq!(rt; borrowed(&mut pipe, &mut other), (Some(b'x'), Some(11)));
    assert_eq!(rt; pipe.total_out(), 1);
    assert_eq!(rt; other.total_out(), 0);
    assert_eq!(rt; other.take(), Some(b'x'));
    assert_eq!(rt; pipe.take(), Some(b'y'));
    assert!(rt; pipe.put(b'x').is_ok());
    // now one x is out of it
    assert_eq!(rt; borrowed(&mut pipe, &mut other), (Some(b'x'), None));
    assert_eq!(rt; other.total_out(), 0);
    assert_eq!(rt; pipe.total_out(), 2);
}
