// A session over a hub and a peer.
ghost use Rattle.std.specs.Prelude.{◌≡◌, None, Ok, OnOk, IfOk, IfSome};
ghost use Rattle.std.specs.Arc.{arc_value};
ghost use Rattle.ssh_hub.specs.Words.{view_of, config_of, IsSeatOf};
ghost use Rattle.ssh_hub_link.specs.Journals.{listed};
ghost use Rattle.ssh_threads.specs.Served.{IsLeft, peer_told};

use crate::choice::put;
use crate::peer::Peer;
use crate::pinned::{Pin, Pinned};
use crate::session::serve_over;
use ssh_hub::{HubLock, Seat};
use ssh_hub_link::HubLink;
use ssh_link::TraceEntry;
use ssh_threads_lines::Outcome;
use ssh_writers::Bells;
use std::alloc::{AllocError, Global};
use std::marker::{Brand, PhantomData};
use std::sync::{Arc, Wait};

/// What is left of a session.
#[derive(Drop)]
pub(crate) struct Served {
    pub(crate) outcome: Outcome,
    pub(crate) trace: Vec<TraceEntry>,
    pub(crate) seat: Seat,
}

/// Serves a session over the hub and the peer, and leaves what came of it; nothing, where memory was
/// wanting.
fn serve_once<'a, R: Wait + Clone + Drop, P: Peer, J: Pin>(
    rt: R,
    alloc: Global,
    lock: Arc<HubLock>,
    seat: Seat,
    peer: &'a mut P,
    bells: &'a Bells,
    left: &mut Option<Served>,
) -> &'a mut P
    requires fits { IsSeatOf (arc_value lock) seat }
    requires hub { (J.table ≡ (arc_value lock).table.shared.table_id)
        × (J.config ≡ config_of (arc_value lock)) × (J.seat ≡ view_of seat) }
    requires peer { (J.name ≡ peer.ghost_name) × (J.inputs ≡ P.Feed.inputs peer.now)
        × (J.frames ≡ P.Feed.frames peer.now) }
    ensures same { result.ghost_name ≡ peer.entry.ghost_name }
    ensures left { IfSome left.new (λ s. IsLeft (arc_value lock) (view_of seat)
        (peer_told P.Feed.inputs P.Feed.frames P.Feed.faults peer.entry.now)
        (peer_told P.Feed.inputs P.Feed.frames P.Feed.faults result.now) s) }
{
    let inner = HubLink::new(rt, alloc, lock, seat, peer, true);
    let mut link: Pinned<'a, R, P, J> = Pinned {
        inner,
        bells,
        of: PhantomData,
    };
    let outcome = serve_over(alloc, &mut link);
    let Pinned {
        inner,
        bells,
        of: _,
    } = link;
    let trace = trace_of(alloc, &inner);
    let (peer, seat) = inner.finish();
    bells.ring_all();
    let served = made(outcome, trace, seat);
    put(left, served);
    peer
}

/// The session that is left, where there was memory for all of it.
fn made(
    outcome: Result<Outcome, AllocError>,
    trace: Result<Vec<TraceEntry>, AllocError>,
    seat: Seat,
) -> Option<Served>
    ensures seat { IfSome result (λ s. s.seat ≡ seat) }
    ensures outcome { IfSome result (λ s. outcome ≡ Ok s.outcome) }
    ensures trace { IfSome result (λ s. trace ≡ Ok s.trace) }
{
    let (outcome, trace) = outcome.ok().zip(trace.ok())?;
    Some(Served {
        outcome,
        trace,
        seat,
    })
}

/// The trace of a link that lost no input.
fn trace_of<R: Wait + Clone + Drop, P: Peer>(
    alloc: Global,
    link: &HubLink<R, &mut P>,
) -> Result<Vec<TraceEntry>, AllocError>
    ensures whole { OnOk result (link.now.lost ≡ None) }
    ensures trace { IfOk result (λ copies. copies.items ≡ listed link.now.trace) }
{
    if !link.is_whole() {
        return Err(AllocError);
    }
    copied(alloc, link.trace())
}

/// The same entries.
fn copied(alloc: Global, entries: &[TraceEntry]) -> Result<Vec<TraceEntry>, AllocError>
    ensures { IfOk result (λ copies. copies.items ≡ entries.now) }
{
    let mut copies = Vec::new(alloc);
    for entry in entries {
        let Ok(copy) = entry.copy() else {
            return Err(AllocError);
        };
        copies.push(copy)?;
    }
    Ok(copies)
}

/// Serves a session over the hub and the peer; None where memory was wanting. The hub has ended
/// then in any case, and all bells were rung.
pub(crate) fn serve<R: Wait + Clone + Drop, P: Peer>(
    rt: &R,
    alloc: Global,
    lock: Arc<HubLock>,
    seat: Seat,
    peer: &mut P,
    bells: &Bells,
) -> Option<Served>
    requires { IsSeatOf (arc_value lock) seat }
    ensures left { IfSome result (λ s. IsLeft (arc_value lock) (view_of seat)
        (peer_told P.Feed.inputs P.Feed.frames P.Feed.faults peer.old)
        (peer_told P.Feed.inputs P.Feed.frames P.Feed.faults peer.new) s) }
{
    let Ok(own) = rt.clone() else {
        let mut seat = seat;
        lock.end(rt, &mut seat);
        bells.ring_all();
        return None;
    };
    let mut left = None;
    serve_once::<R, P, Brand>(own, alloc, lock, seat, peer, bells, &mut left);
    left
}
