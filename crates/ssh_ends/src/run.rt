// A whole list of events.
ghost use Rattle.std.specs.Prelude.{◌<◌, IfOk, IfErr};
ghost use Rattle.ssh_ends.specs.Story.{Ran, RunsOut};

use crate::{Deliveries, EndError, Ends, EventList};
use std::alloc::Global;

/// These events, in order, of two new ends, each of which gives this window and takes this packet
/// size: all that they deliver, in order. It stops at the first event that answers an error, and
/// answers that error.
///
/// While each side draws fewer than 2^32 - 1 numbers of channels, want of memory is the only error.
pub fn run_ends(
    alloc: Global,
    window: u32,
    packet: u32,
    events: EventList,
) -> Result<Deliveries, EndError>
    requires { 0 < packet }
    ensures ran { IfOk result (Ran window packet events) }
    ensures memory { IfErr result (RunsOut window packet events) }
{
    let mut ends = Ends::new(alloc, window, packet);
    let mut deliveries = Deliveries::new(alloc);
    let mut rest = events;
    while let Some(event) = rest.pop() {
        deliveries.play(&mut ends, event)?;
    }
    Ok(deliveries)
}
