// How a call ends: its status, and the world that it leaves.
ghost use Rattle.std.specs.Prelude.{◌≡◌, ◌<◌, ◌-◌, ◌^◌, None};
ghost use Rattle.xp_tool.specs.Made.{Wrote};

use crate::product::Made;
use crate::status::Status;
use xp_outside::sink::{Sink, SinkFault, write_all};
use xp_world::world::World;

/// How a call ended, and the world that it left. There is one exactly where the command leaves a
/// world and the status is `Ok` or `WriteFault`.
#[derive(Drop)]
pub struct Done {
    pub status: Status,
    pub end: Option<World>,
}

/// Writes the text that was made.
pub fn write_out<K: Sink>(sink: &mut K, made: Made) -> Done
    requires { K.faults sink.old < 2 ^ 64 - 1 }
    ensures { Wrote made.product made.text.items (K.held sink.old) (K.held sink.new)
        (K.faults sink.old) (K.faults sink.new) result.end result.status }
{
    match write_all(sink, &made.text) {
        Ok(()) => Done {
            status: Status::Ok,
            end: made.product.into_end(),
        },
        Err(SinkFault::Failed) => Done {
            status: Status::WriteFault,
            end: made.product.into_end(),
        },
        Err(SinkFault::Memory) => failed(Status::NoMemory),
    }
}

/// The end of a call that did nothing.
pub fn failed(status: Status) -> Done
    ensures status { result.status ≡ status }
    ensures end { result.end ≡ None }
{
    Done { status, end: None }
}
