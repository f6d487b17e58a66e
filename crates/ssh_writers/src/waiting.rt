// A seat that waits for a channel.
ghost use Rattle.ssh_hub.specs.Words.{IsSeatOf};

use crate::bell::Bells;
use ssh_hub::{HandleError, HubLock, Seat};
use ssh_wire::ChannelId;
use std::sync::Wait;

// Waits until the hub has the channel: on the channel's bell, and where it has none, for any event.
// `Ended`, the only error, where the hub ends before.
pub(crate) fn wait_for<R: Wait>(
    rt: &R,
    bells: &Bells,
    lock: &HubLock,
    seat: &mut Seat,
    channel: ChannelId,
) -> Result<(), HandleError>
    requires { IsSeatOf lock.now seat.old }
    ensures seat { IsSeatOf lock.now seat.new }
{
    for _ in rt.forever() {
        if lock.look(rt, seat, channel).is_some() {
            return Ok(());
        }
        let place = seat.place();
        if let Some(at) = lock.ended(rt, seat) {
            return Err(HandleError::Ended { at });
        }
        if !bells.wait(rt, channel) {
            pause(rt, lock, seat, place);
        }
    }
    unreachable!()
}

// Waits for an entry of another behind the one at `place`, if none stands there yet.
fn pause<R: Wait>(rt: &R, lock: &HubLock, seat: &Seat, place: Option<u64>) {
    let (Some(first), Some(newest)) = (place, seat.place()) else {
        return;
    };
    if newest.saturating_sub(first) <= 1 {
        lock.pause(rt, newest);
    }
}
