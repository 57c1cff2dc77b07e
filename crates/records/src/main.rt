// Lists the records of a raw schedule from standard input: for each its place and its line, or the refusal that ends it.
#![tactic(auto)]

ghost use Rattle.std.specs.Prelude.{◌≡◌, ◌++◌, IfOk, OnOk};
ghost use Rattle.records.specs.Listing.{entry_line, refusal_line, listed};
ghost use Rattle.schedule.specs.Reading.{division};
ghost use Rattle.schedule.specs.Views.{viewed};

use schedule::line::LINE_ROOM;
use schedule::reader::ScheduleReader;
use schedule::refusal::ReadRefusal;
use schedule::view::Placed;
use std::alloc::{AllocError, Global};
use std::io;
use std::io::{Read, Write};

// Only memory can be wanting here: a list in memory is written to, and no stream.
fn list_record(out: &mut Vec<u8>, placed: Placed<'_>) -> Result<(), AllocError>
    ensures { OnOk result (out.new.items ≡ out.old.items ++ entry_line (placed.entry.place, viewed placed.entry.record)) }
{
    let Placed { place, record } = placed;
    let mut buffer = [0u8; LINE_ROOM];
    let length = record.record().line(&mut buffer).unwrap();
    write!(out, "{place} ").map_err(|_| AllocError)?;
    out.extend_from_slice(&buffer[0..length])
}

fn list_refusal(out: &mut Vec<u8>, refusal: ReadRefusal) -> Result<(), AllocError>
    ensures { OnOk result (out.new.items ≡ out.old.items ++ refusal_line refusal) }
{
    let number = refusal.number();
    let place = refusal.place();
    writeln!(out, "refused {number} {place}").map_err(|_| AllocError)
}

// The listing of a whole schedule.
fn list(heap: Global, schedule: &[u8]) -> Result<Vec<u8>, AllocError>
    ensures { IfOk result (λ v. v.items ≡ listed (division schedule.now 0)) }
{
    let mut out = Vec::new(heap);
    let mut reader = ScheduleReader::new(schedule);
    loop {
        match reader.next() {
            Ok(Some(placed)) => list_record(&mut out, placed)?,
            Ok(None) => return Ok(out),
            Err(refusal) => {
                list_refusal(&mut out, refusal)?;
                return Ok(out);
            }
        }
    }
}

fn main(rt: HostRuntime) -> io::Result<()> {
    let mut schedule = Vec::new(rt.alloc());
    rt.stdin().read_to_end(&mut schedule)?;
    let listing = list(rt.alloc(), schedule.as_slice())?;
    rt.write_all(listing.as_slice())
}
