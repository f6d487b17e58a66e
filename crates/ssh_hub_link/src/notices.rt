// What a notice does in the hub.
ghost use Rattle.std.specs.Prelude.{◌≡◌, IfErr, OnOk, OnErr};
ghost use Rattle.ssh_link.specs.declared.link.LinkFault.TheVariants.{NoMemory};
ghost use Rattle.ssh_link.specs.declared.notice.Notice.TheVariants.{Channel};
ghost use Rattle.ssh_hub.specs.Words.{IsSeatOf, view_of, HasLearned};
ghost use Rattle.ssh_hub_link.specs.Notices.{Notices, may_be_dropped};

use ssh_hub::{Deliver, HubLock, Seat, SlotAnswer};
use ssh_link::{ChannelMsg, LinkFault, Notice};
use ssh_wire::ChannelId;
use std::sync::Wait;

// Makes the calls of the notice. After `NoMemory`, the only error, no call was made.
pub fn tell<R: Wait>(
    rt: &R,
    lock: &HubLock,
    seat: &mut Seat,
    notice: Notice,
) -> Result<(), LinkFault>
    requires { IsSeatOf lock.now seat.old }
    ensures seat { IsSeatOf lock.now seat.new }
    ensures ok { OnOk result (Notices notice (view_of seat.old) (view_of seat.new)) }
    ensures err { OnErr result (HasLearned seat.old seat.new) }
    ensures memory { IfErr result (λ e. e ≡ NoMemory) }
{
    match notice {
        Notice::Channel(channel, msg) => {
            deliver(rt, lock, seat, channel, msg);
            Ok(())
        }
        Notice::Granted { channel, amount } => {
            lock.grant(rt, seat, channel, amount);
            Ok(())
        }
        Notice::Ready {
            channel,
            window,
            packet,
        } => match lock.ready(rt, seat, channel, window, packet) {
            Ok(()) => Ok(()),
            Err(_) => Err(LinkFault::NoMemory),
        },
        Notice::Forwarded { slot, port } => {
            lock.slot_answer(rt, seat, slot, SlotAnswer::Port(port));
            Ok(())
        }
        Notice::Cancelled { slot, ok } => {
            lock.slot_answer(rt, seat, slot, SlotAnswer::Cancelled(ok));
            Ok(())
        }
        Notice::Pong { slot } => {
            lock.slot_answer(rt, seat, slot, SlotAnswer::Pong);
            Ok(())
        }
    }
}

// Puts the message into its inbox, again while that is full. A full inbox drops a message that says
// how much may be sent, and a channel that is gone drops any.
fn deliver<R: Wait>(rt: &R, lock: &HubLock, seat: &mut Seat, channel: ChannelId, msg: ChannelMsg)
    requires { IsSeatOf lock.now seat.old }
    ensures seat { IsSeatOf lock.now seat.new }
    ensures calls { Notices (Channel channel msg) (view_of seat.old) (view_of seat.new) }
{
    let may_be_dropped = may_be_dropped(&msg);
    let mut msg = msg;
    for _ in rt.forever() {
        match lock.deliver(rt, seat, channel, msg) {
            Deliver::Done => return,
            Deliver::Gone(back) => {
                drop(back);
                return;
            }
            Deliver::Full(back) => msg = back,
        }
        if may_be_dropped {
            drop(msg);
            return;
        }
        pause(rt, lock, seat);
    }
    unreachable!()
}

// Waits for an entry behind the newest one of the seat.
fn pause<R: Wait>(rt: &R, lock: &HubLock, seat: &Seat) {
    if let Some(place) = seat.place() {
        lock.pause(rt, place);
    }
}

fn may_be_dropped(msg: &ChannelMsg) -> bool
    ensures { result ≡ may_be_dropped msg.now }
{
    matches!(msg, ChannelMsg::WindowAdjusted { .. })
}
