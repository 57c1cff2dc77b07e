// An end: a node, and how it ends: well, or as failed for a cause.
ghost use Rattle.std.specs.Prelude.{◌≡◌, ◌<◌};

use schedule::cause::Cause;
use schedule::record::Record;

#[derive(Clone, Copy)]
pub(crate) struct End {
    pub(crate) node: u32,
    pub(crate) how: Result<(), Cause>,
}

impl End {
    ghost use Rattle.build.specs.Ended.{ended_record};

    // Its record.
    pub(crate) fn record(self) -> Record
        requires { self.node < 256 }
        ensures { result ≡ ended_record self.how self.node }
    {
        match self.how {
            Ok(()) => Record::EndedWell {
                node: self.node as u8,
            },
            Err(cause) => Record::EndedFailed {
                node: self.node as u8,
                cause: cause.number(),
            },
        }
    }
}
