// A pool walked through a table of calls, each with the answer that it must give.
use pipe::Pipe;
use pool::{Pool, Refusal};
use std::process::Abort;

// Calls as data, so that a walk is a table.
#[derive(Clone, Copy)]
pub enum Call {
    // a take, and the byte or none that it answers
    Take(Option<u8>),
    // a put of a byte, and the number of the refusal if it is refused
    Put(u8, Option<u32>),
    // a reading, and the number of the refusal if it is refused
    Load(u32, Option<u32>),
    // how many of a byte are in and out
    Counts(u8, u32, u32),
    // how many are out in all, and ready
    Totals(u32, u32),
}

// Makes each call in turn, and compares its answer.
pub fn walk<P: Pool>(rt: &impl Abort, pool: &mut P, calls: &[Call]) {
    for &call in calls {
        make(rt, pool, call);
    }
}

fn make<P: Pool>(rt: &impl Abort, pool: &mut P, call: Call) {
    match call {
        Call::Take(byte) => assert_eq!(rt; pool.take(), byte),
        Call::Put(byte, refused) => assert_eq!(rt; refusal_number(pool.put(byte)), refused),
        Call::Load(reading, refused) => assert_eq!(rt; refusal_number(pool.load(reading)), refused),
        Call::Counts(byte, tokens_in, tokens_out) => {
            assert_eq!(rt; pool.count_in(byte), tokens_in);
            assert_eq!(rt; pool.count_out(byte), tokens_out);
        }
        Call::Totals(out, ready) => {
            assert_eq!(rt; pool.total_out(), out);
            assert_eq!(rt; pool.ready(), ready);
        }
    }
}

// The number of the refusal, if the answer is one.
pub fn refusal_number(answer: Result<(), Refusal>) -> Option<u32> {
    answer.err().map(|refusal| refusal.number())
}

// A pipe with these tokens in, of which there are at most 63.
pub fn pipe_of(rt: &impl Abort, tokens: &[u8]) -> Pipe {
    let mut pipe = Pipe::new();
    assert!(rt; pipe.fill(tokens).is_ok());
    pipe
}
