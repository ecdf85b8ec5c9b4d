// One read, and whether another one comes.
ghost use Rattle.std.specs.Prelude.{◌≡◌};
ghost use Rattle.streaming.specs.Fed.{may_read};
ghost use Rattle.streaming.specs.Inner.Reading.{Readable, Delivered};

use crate::Limit;
use printing::{End, Meters, report};
use std::io::{ErrorKind, Read};

// Whether the reads have not ended, no write has failed, and a read is left.
pub(crate) fn may_read(meters: &Meters) -> bool
    ensures { result ≡ may_read meters.now }
{
    meters.ended.is_none() && !meters.failed && meters.reads < Limit::READS
}

// Reads a block, and gives how many bytes it has: none where a signal came first, or where the reads end. A read that fails is reported.
pub(crate) fn read_block(rt: &HostRuntime, input: &mut [u8], meters: &mut Meters) -> usize
    requires { Readable input.old meters.old }
    ensures { Delivered result input.new meters.old meters.new }
{
    meters.reads += 1;
    match rt.stdin().read(input) {
        Ok(0) => {
            meters.ended = Some(End::NoMore);
            0
        }
        Ok(count) => {
            meters.read += count as u64;
            count
        }
        Err(error) => {
            if error.kind() != ErrorKind::Interrupted {
                report(rt, "reading standard input", error);
                meters.ended = Some(End::Unread);
            }
            0
        }
    }
}
