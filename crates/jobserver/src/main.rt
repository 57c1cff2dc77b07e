// Reads a first line and a script, and prints what a tool sees that obtains and releases every token of that pool, and the
// script's tree.
#![tactic(auto)]

use report::report;
use std::io;
use std::io::Read;

fn main(rt: HostRuntime) -> io::Result<()> {
    let mut input = Vec::new(rt.alloc());
    rt.stdin().read_to_end(&mut input)?;
    let text = report(rt.alloc(), input.as_slice())?;
    rt.write_all(text.as_slice())
}
