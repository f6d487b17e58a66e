// The link of a session that several threads share, which is known again after the run.
ghost use Rattle.std.specs.Prelude.{ℕ, List, [], Option, None};
ghost use Rattle.atomic_table.specs.Seated.{TableId};
ghost use Rattle.ssh_link.specs.Frames.{Frame};
ghost use Rattle.ssh_link.specs.declared.frame.Input.{Input};
ghost use Rattle.ssh_hub.specs.Rule.{nobody};
ghost use Rattle.ssh_hub.specs.declared.answers.Config2.{Config2};
ghost use Rattle.ssh_hub.specs.declared.history.View.{View};

use crate::peer::Peer;
use ssh_hub_link::HubLink;
use ssh_link::{ChannelMsg, CommandOutcome, Frame, Input, Link, LinkFault, Notice};
use ssh_wire::ChannelId;
use ssh_writers::Bells;
use std::marker::{Brand, Model, PhantomData};
use std::sync::Wait;

// What stays of a link while a session runs over it: the table and the sizes of its hub, what its
// seat knew at first, which peer it has, and what that had told at first.
pub(crate) trait Pin {
    ghost table: { TableId };

    ghost config: { Config2 };

    ghost seat: { View };

    ghost name: { ℕ };

    ghost inputs: { Option (List Input) };

    ghost frames: { Option (List Frame) };
}

// A call picks its own.
impl Pin for Brand {
    ghost table = { record {
      words = 0;
      slots = 0;
      views_name = 0;
      atom = 0;
      block = 0;
      offset = 0;
      slot_names = [];
    } };

    ghost config = { nobody.config };

    ghost seat = { nobody };

    ghost name = { 0 };

    ghost inputs = { None };

    ghost frames = { None };
}

// The channel whose writer may go on after this notice.
fn wakes(notice: &Notice) -> Option<ChannelId> {
    match notice {
        Notice::Granted { channel, .. } => Some(*channel),
        Notice::Ready { channel, .. } => Some(*channel),
        Notice::Channel(channel, ChannelMsg::Close | ChannelMsg::OpenFailure(_)) => Some(*channel),
        _ => None,
    }
}

// A hub's link over a peer that is lent, which wakes the writers by their bells.
#[derive(Drop)]
pub(crate) struct Pinned<'a, R, P: Peer, J: Pin> {
    pub(crate) inner: HubLink<R, &'a mut P>,
    pub(crate) bells: &'a Bells,
    pub(crate) of: PhantomData<J>,
}

impl<'a, R, P: Peer, J: Pin> Model for Pinned<'a, R, P, J> {
    ghost use Rattle.std.specs.Prelude.{◌≡◌};
    ghost use Rattle.ssh_hub.specs.Words.{view_of, config_of};
    ghost use Rattle.ssh_threads.specs.Pins.{Watched};

    ghost Value = { Watched };

    ghost view = { λ l. record {
      trace = l.inner.trace;
      faults = P.Feed.faults l.inner.feed.now;
    } };

    ghost invariant = { λ l. (l.inner.lock.table.shared.table_id ≡ J.table)
        × (config_of l.inner.lock ≡ J.config)
        × (view_of l.inner.seat_before ≡ J.seat)
        × (l.inner.feed_before.ghost_name ≡ J.name)
        × (P.Feed.inputs l.inner.feed_before.now ≡ J.inputs)
        × (P.Feed.frames l.inner.feed_before.now ≡ J.frames) };
}

impl<'a, R: Wait + Clone + Drop, P: Peer, J: Pin> Link for Pinned<'a, R, P, J> {
    ghost trace = { λ l. l.trace };

    ghost faults = { λ l. l.faults };

    fn next(&mut self, commands: bool, replies: bool) -> Result<Input, LinkFault> {
        self.inner.next(commands, replies)
    }

    fn send(&mut self, frame: Frame) -> Result<(), LinkFault> {
        self.inner.send(frame)
    }

    fn notice(&mut self, notice: Notice) -> Result<(), LinkFault> {
        let channel = wakes(&notice);
        let told = self.inner.notice(notice);
        self.bells.ring(channel);
        told
    }

    fn answer(&mut self, ticket: u64, outcome: CommandOutcome) -> Result<(), LinkFault> {
        self.inner.answer(ticket, outcome)
    }
}
