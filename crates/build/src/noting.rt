// One record more in the schedule.
ghost use Rattle.std.specs.Prelude.{◌+◌, ◌≤◌, length};
ghost use Rattle.build.specs.Changes.{Noted};
ghost use Rattle.schedule.specs.Records.{size};

use crate::work::Work;
use schedule::record::Record;

impl Work {
    // Writes a record behind those so far.
    pub(crate) fn note(&mut self, event: Record, buffer: &mut [u8])
        requires room { self.old.written + size event ≤ length buffer.old }
        ensures after { Noted self.old buffer.old event self.new buffer.new }
    {
        self.written = event.write(buffer, self.written).unwrap();
    }
}
