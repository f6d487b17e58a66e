// The link of a session over a hub and a feed.
ghost use Rattle.std.specs.Prelude.{◌≡◌, None, true};
ghost use Rattle.std.specs.Arc.{arc_value};
ghost use Rattle.std.specs.Option.{option_map, is_none};
ghost use Rattle.ssh_hub.specs.Words.{view_of, IsSeatOf, HasCalled};
ghost use Rattle.ssh_hub.specs.declared.history.HubCall.TheVariants.{EndHub};
ghost use Rattle.ssh_hub.specs.declared.history.HubReply.TheVariants.{Done};
ghost use Rattle.ssh_hub_link.specs.Journals.{begun, listed};
ghost use Rattle.ssh_hub_link.specs.Given.{given, sent, of_feed, of_hub, GoesOn, TakesOf};

use crate::feed::Feed;
use crate::journal::Journal;
use ssh_hub::{HubLock, Seat};
use ssh_link::{Input, TraceEntry};
use std::alloc::Global;
use std::marker::Model;
use std::snapshot::Snapshot;
use std::sync::{Arc, Wait};

mod link;
mod rounds;

/// The link of a session whose commands and replies come out of a hub, and whose other inputs and
/// frames are those of a feed. What it tells its users goes into the hub.
#[derive(Drop)]
pub struct HubLink<R, F: Feed> {
    rt: R,
    lock: Arc<HubLock>,
    seat: Seat,
    feed: F,
    // When the newest input of the feed came.
    moment: u64,
    trace: Journal<TraceEntry>,
    lost: Option<Input>,
    seat_before: Snapshot<Seat>,
    feed_before: Snapshot<F>,
}

impl<R, F: Feed> Model for HubLink<R, F> {
    ghost use Rattle.std.specs.Prelude.{◌≡◌};
    ghost use Rattle.std.specs.Arc.{arc_value};
    ghost use Rattle.std.specs.Option.{option_map};
    ghost use Rattle.ssh_hub.specs.declared.lock.HubLock.{HubLock};
    ghost use Rattle.ssh_hub.specs.declared.lock.Seat.{Seat};
    ghost use Rattle.ssh_hub.specs.Words.{IsSeatOf, view_of};
    ghost use Rattle.ssh_hub_link.specs.Linked.{Linked};
    ghost use Rattle.ssh_hub_link.specs.Given.{given, sent, of_feed, of_hub, GoesOn, TakesOf};

    ghost Value = { Linked HubLock Seat F };

    ghost use Rattle.std.specs.Coded.{codes};
    ghost use Rattle.ssh_hub.specs.contracts.lock.HubLock as hub_lock;
    ghost use Rattle.ssh_hub.specs.contracts.lock.Seat as hub_seat;

    ghost coded = { Prim.hlevel (codes, hub_lock.the_row.coded, hub_seat.the_row.coded) };

    ghost view = { λ l. record {
      lock = arc_value l.lock;
      seat = l.seat;
      feed = l.feed;
      seat_before = l.seat_before.value;
      feed_before = l.feed_before.value;
      trace = l.trace;
      lost = l.lost;
    } };

    ghost invariant = { λ l. IsSeatOf (arc_value l.lock) l.seat
        × TakesOf (view_of l.seat_before.value) (view_of l.seat)
        (option_map of_hub (given l.trace l.lost))
        × GoesOn (F.inputs l.feed_before.value) (F.inputs l.feed)
        (option_map of_feed (given l.trace l.lost))
        × GoesOn (F.frames l.feed_before.value) (F.frames l.feed) (sent l.trace)
        × (F.identity l.feed ≡ F.identity l.feed_before.value) };
}

impl<R: Wait + Clone + Drop, F: Feed> HubLink<R, F> {
    /// A link over this feed, whose commands and replies the seat takes out of the hub. With `keep`
    /// it keeps a trace, which it tells and lends.
    pub fn new(
        rt: R,
        alloc: Global,
        lock: Arc<HubLock>,
        seat: Seat,
        feed: F,
        keep: bool,
    ) -> HubLink<R, F>
        requires { IsSeatOf (arc_value lock) seat }
        ensures lock { result.lock ≡ arc_value lock }
        ensures seat { (result.seat ≡ seat) × (result.seat_before ≡ seat) }
        ensures feed { (result.feed ≡ feed) × (result.feed_before ≡ feed) }
        ensures trace { (result.trace ≡ begun keep) × (result.lost ≡ None) }
    {
        let seat_before = Snapshot::of(&seat);
        let feed_before = Snapshot::of(&feed);
        HubLink {
            rt,
            lock,
            seat,
            feed,
            moment: 0,
            trace: Journal::new(alloc, keep),
            lost: None,
            seat_before,
            feed_before,
        }
    }

    /// The finished calls, in order; none where no trace is kept.
    pub fn trace(&self) -> &[TraceEntry]
        ensures { result.now ≡ listed self.now.trace }
    {
        self.trace.as_slice()
    }

    /// Whether no input was lost: one that came is neither given nor told where there was no memory
    /// to tell it, and every later `next` answers `NoMemory`.
    pub fn is_whole(&self) -> bool
        ensures { result ≡ is_none self.now.lost }
    {
        self.lost.is_none()
    }

    /// Ends the hub, and gives the feed and the seat back. Whoever ran the session calls it after
    /// the run. Since `new` the seat took out of the hub just the commands and replies that the
    /// trace tells, and the one that was lost; and so it is with the feed's inputs and frames.
    pub fn finish(self) -> (F, Seat)
        ensures feed { result.0 ≡ self.feed }
        ensures call { HasCalled self.seat EndHub Done result.1 }
        ensures seat { IsSeatOf self.lock result.1 }
        ensures takes { TakesOf (view_of self.seat_before) (view_of result.1)
            (option_map of_hub (given self.trace self.lost)) }
        ensures inputs { GoesOn (F.inputs self.feed_before) (F.inputs result.0)
            (option_map of_feed (given self.trace self.lost)) }
        ensures frames { GoesOn (F.frames self.feed_before) (F.frames result.0)
            (sent self.trace) }
        ensures identity { F.identity result.0 ≡ F.identity self.feed_before }
    {
        let HubLink {
            rt,
            lock,
            seat,
            feed,
            moment: _,
            trace,
            lost,
            seat_before: _,
            feed_before: _,
        } = self;
        drop(trace);
        drop(lost);
        let mut seat = seat;
        lock.end(&rt, &mut seat);
        (feed, seat)
    }
}
