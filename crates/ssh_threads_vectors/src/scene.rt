// A hub, and a count of faults.
ghost use Rattle.std.specs.Prelude.{◌≡◌, ◌<◌, ◌≤◌, true, IfOk};
ghost use Rattle.std.specs.Arc.{arc_value};
ghost use Rattle.ssh_hub.specs.Words.{IsSeatOf};

use ssh_hub::{Config2, HandleError, HubLock, Seat};
use std::alloc::Global;
use std::sync::{Arc, Wait};

// A hub that holds four commands and two messages in an inbox, with two seats.
pub fn hub<R: Wait>(rt: &R, alloc: Global) -> Result<(Arc<HubLock>, Seat, Seat), HandleError>
    ensures { IfOk result (λ made. IsSeatOf (arc_value made.0) made.1
        × IsSeatOf (arc_value made.0) made.2) }
{
    let config = Config2 {
        channel_buffer_size: 2,
        event_buffer_size: 4,
    };
    let (lock, seat) = HubLock::new(alloc, &config)?;
    let mut seat = seat;
    let other = lock.split(rt, &mut seat)?;
    let lock = Arc::new(alloc, lock)?;
    Ok((lock, seat, other))
}

// Counts one fault more, where the count has room.
pub fn fails(faults: &mut u64) -> bool
    ensures rose { result ≡ true → faults.old < faults.new }
    ensures later { faults.old ≤ faults.new }
{
    if *faults == u64::MAX {
        return false;
    }
    *faults += 1;
    true
}
