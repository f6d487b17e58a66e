// A session in one thread, and its writers in others.
ghost use Rattle.std.specs.Prelude.{◌≡◌, ◌≤◌, ◌<◌, [], None, Err, All, IfOk, IfErr, IfSome};
ghost use Rattle.std.specs.Prelude.{MatchOption};
ghost use Rattle.std.specs.Arc.{arc_value};
ghost use Rattle.ssh_wire.specs.declared.error.WireError.TheVariants.{NoMemory};
ghost use Rattle.ssh_link.specs.Faults.{Rose};
ghost use Rattle.ssh_rules.specs.declared.error.RunError.TheVariants as error;
ghost use Rattle.ssh_hub.specs.Words.{view_of, IsSeatOf, Meets};
ghost use Rattle.ssh_writers.specs.Writers.{IsWriterOf, HasMadeNone};
ghost use Rattle.ssh_threads.specs.Runs.{RanInThreads};
ghost use Rattle.ssh_threads.specs.Served.{IsLeft, peer_told};

use crate::choice::unless;
use crate::peer::Peer;
use crate::served::{Served, serve};
use ssh_handler::Config;
use ssh_handles::Gate;
use ssh_hub::{Config2, HandleError, HubLock, Seat};
use ssh_link::{LinkFault, TraceEntry};
use ssh_session::RunError;
use ssh_threads_lines::Outcome;
use ssh_wire::{ChannelId, WireError};
use ssh_writers::{Bells, Post, Writer, Written, write_all};
use std::alloc::Global;
use std::sync::{Arc, Wait};
use std::thread::{Threads, join_mut};

/// The finished calls of a link, in order.
pub type Trace = Vec<TraceEntry>;

/// What a run in threads leaves.
#[derive(Drop)]
pub struct ThreadsRun {
    /// How the session ended.
    pub outcome: Outcome,
    /// What its link told.
    pub trace: Trace,
    /// The hub, which has ended.
    pub lock: Arc<HubLock>,
    /// The session's seat, into which those of the writers were joined.
    pub seat: Seat,
}

impl ThreadsRun {
    /// How the session ended; all else is dropped.
    pub fn into_outcome(self) -> Outcome
        ensures { result ≡ self.outcome }
    {
        let ThreadsRun {
            outcome,
            trace,
            lock,
            seat,
        } = self;
        drop(trace);
        drop(lock);
        drop(seat);
        outcome
    }
}

/// This side's number of the first channel.
const FIRST_CHANNEL: u32 = 2;

/// Who serves the session.
#[derive(Drop)]
struct Server {
    lock: Arc<HubLock>,
    seat: Seat,
    ghost fits: { IsSeatOf (arc_value lock) seat },
}

/// Who writes.
#[derive(Drop)]
struct Team {
    post: Post,
    writers: Vec<Writer>,
}

/// A new writer on this channel. `NoMemory` is the only error.
fn new_writer<R: Wait>(
    rt: &R,
    alloc: Global,
    lock: &Arc<HubLock>,
    seat: &mut Seat,
    channel: ChannelId,
) -> Result<Writer, WireError>
    requires { IsSeatOf (arc_value lock.now) seat.old }
    ensures seat { IsSeatOf (arc_value lock.now) seat.new }
    ensures made { IfOk result (λ writer. IsWriterOf (arc_value lock.now) writer) }
    ensures memory { IfErr result (λ e. e ≡ NoMemory) }
{
    let Ok(theirs) = lock.split(rt, seat) else {
        return Err(WireError::NoMemory);
    };
    let post = Post::new(alloc, Arc::try_clone(lock)?, theirs)?;
    Ok(Writer { post, channel })
}

/// The writers on so many channels. `NoMemory` is the only error.
fn new_writers<R: Wait>(
    rt: &R,
    alloc: Global,
    lock: &Arc<HubLock>,
    seat: &mut Seat,
    n: u32,
) -> Result<Vec<Writer>, WireError>
    requires { IsSeatOf (arc_value lock.now) seat.old }
    ensures seat { IsSeatOf (arc_value lock.now) seat.new }
    ensures made { IfOk result (λ made. All (IsWriterOf (arc_value lock.now)) made.items) }
    ensures memory { IfErr result (λ e. e ≡ NoMemory) }
{
    let mut made = Vec::new(alloc);
    for k in 0..n {
        let channel = ChannelId(k.saturating_add(FIRST_CHANNEL));
        made.push(new_writer(rt, alloc, lock, seat, channel)?)?;
    }
    Ok(made)
}

/// The server, with a new seat. `NoMemory` is the only error.
fn new_server<R: Wait>(rt: &R, lock: &Arc<HubLock>, seat: &mut Seat) -> Result<Server, WireError>
    requires { IsSeatOf (arc_value lock.now) seat.old }
    ensures seat { IsSeatOf (arc_value lock.now) seat.new }
    ensures hub { IfOk result (λ server. arc_value server.lock ≡ arc_value lock.now) }
    ensures new { IfOk result (λ server. HasMadeNone (view_of server.seat)) }
    ensures memory { IfErr result (λ e. e ≡ NoMemory) }
{
    let Ok(own) = lock.split(rt, seat) else {
        return Err(WireError::NoMemory);
    };
    Ok(Server {
        lock: Arc::try_clone(lock)?,
        seat: own,
    })
}

/// The server and the team of a session with so many channels. `NoMemory` is the only error.
fn staff<R: Wait>(
    rt: &R,
    alloc: Global,
    n: u32,
    lock: &Arc<HubLock>,
    seat: Seat,
) -> Result<(Server, Team), WireError>
    requires { IsSeatOf (arc_value lock.now) seat }
    ensures hub { IfOk result (λ made. arc_value made.0.lock ≡ arc_value lock.now) }
    ensures new { IfOk result (λ made. HasMadeNone (view_of made.0.seat)) }
    ensures post { IfOk result (λ made. arc_value made.1.post.lock ≡ arc_value lock.now) }
    ensures writers { IfOk result (λ made. All (IsWriterOf (arc_value lock.now))
        made.1.writers.items) }
    ensures memory { IfErr result (λ e. e ≡ NoMemory) }
{
    let mut seat = seat;
    let server = new_server(rt, lock, &mut seat)?;
    let writers = new_writers(rt, alloc, lock, &mut seat, n)?;
    let post = Post::new(alloc, Arc::try_clone(lock)?, seat)?;
    Ok((server, Team { post, writers }))
}

/// Serves the session, once.
fn serve_taken<R: Wait + Clone + Drop, P: Peer>(
    rt: &R,
    alloc: Global,
    bells: &Bells,
    peer: &mut P,
    server: &mut Option<Server>,
) -> Option<Served>
    ensures { MatchOption server.old (result ≡ None) (λ own. IfSome result
        (λ s. IsLeft (arc_value own.lock) (view_of own.seat)
        (peer_told P.Feed.inputs P.Feed.frames P.Feed.faults peer.old)
        (peer_told P.Feed.inputs P.Feed.frames P.Feed.faults peer.new) s)) }
{
    let Server { lock, seat } = server.take()?;
    serve(rt, alloc, lock, seat, peer, bells)
}

/// Lets the team write, once, and gives back the seat into which all of theirs were joined; None where
/// memory was wanting.
fn write_taken<R: Threads + Wait + Sync, G: Gate + Sync>(
    rt: &R,
    alloc: Global,
    gate: &G,
    bells: &Bells,
    lock: &HubLock,
    team: &mut Option<Team>,
) -> Option<Seat>
    requires { IfSome team.old (λ team. (arc_value team.post.lock ≡ lock.now)
        × All (IsWriterOf lock.now) team.writers.items) }
    ensures { IfSome result (λ seat. IsSeatOf lock.now seat) }
{
    let Team { post, writers } = team.take()?;
    let Written { seat, result } = write_all(rt, alloc, gate, bells, lock, post, writers);
    unless(result == Err(HandleError::NoMemory), seat)
}

/// Serves the session and lets the team write at once.
fn run_both<R: Threads + Wait + Clone + Drop + Sync, G: Gate + Sync, P: Peer + Send>(
    rt: &R,
    alloc: Global,
    gate: &G,
    bells: &Bells,
    lock: &HubLock,
    peer: &mut P,
    server: Server,
    team: Team,
) -> Option<(Served, Seat)>
    requires post { arc_value team.post.lock ≡ lock.now }
    requires writers { All (IsWriterOf lock.now) team.writers.items }
    ensures served { IfSome result (λ done. IsLeft (arc_value server.lock) (view_of server.seat)
        (peer_told P.Feed.inputs P.Feed.frames P.Feed.faults peer.old)
        (peer_told P.Feed.inputs P.Feed.frames P.Feed.faults peer.new) done.0) }
    ensures written { IfSome result (λ done. IsSeatOf lock.now done.1) }
{
    let mut server = Some(server);
    let mut team = Some(team);
    let (served, written) = join_mut(
        rt,
        &mut || serve_taken(rt, alloc, bells, peer, &mut server),
        &mut || -> Option<Seat>
            requires { IfSome team (λ team. (arc_value team.post.lock ≡ lock.now)
                × All (IsWriterOf lock.now) team.writers.items) }
        { write_taken(rt, alloc, gate, bells, lock, &mut team) },
    );
    served.zip(written)
}

/// A session of so many channels, on each of which a thread writes 100000 bytes and then the end of
/// file, through this gate; the peer is told first how many they are. The hub has the sizes of the
/// standard config. Where that call of the peer fails, nothing is run. Want of memory, of a writer
/// too, is the only error.
pub fn run_threads<R: Threads + Wait + Clone + Drop + Sync, G: Gate + Sync, P: Peer + Send>(
    rt: &R,
    alloc: Global,
    n: u32,
    gate: &G,
    peer: &mut P,
) -> Result<ThreadsRun, WireError>
    requires { (0 < n) × (n ≤ 8) }
    ensures seat { IfOk result (λ run. IsSeatOf (arc_value run.lock) run.seat) }
    ensures ran { IfOk result (λ run. RanInThreads
        (Rose (P.Feed.faults peer.old) (P.Feed.faults peer.new))
        (P.Feed.inputs peer.old) (P.Feed.inputs peer.new)
        (P.Feed.frames peer.old) (P.Feed.frames peer.new)
        run.trace.items run.outcome (view_of run.seat)) }
    ensures cause { IfOk result (λ run. run.outcome ≡ Err error.LinkFault
        → Rose (P.Feed.faults peer.old) (P.Feed.faults peer.new)) }
    ensures memory { IfErr result (λ e. e ≡ NoMemory) }
{
    let config = Config::standard();
    let sizes = Config2 {
        channel_buffer_size: config.channel_buffer_size,
        event_buffer_size: config.event_buffer_size,
    };
    let Ok((lock, seat)) = HubLock::new(alloc, &sizes) else {
        return Err(WireError::NoMemory);
    };
    let lock = Arc::new(alloc, lock)?;
    match peer.channels(n) {
        Ok(()) => run_staffed(rt, alloc, n, gate, lock, seat, peer),
        Err(LinkFault::Failed) => Ok(ThreadsRun {
            outcome: Err(RunError::LinkFault),
            trace: Vec::new(alloc),
            lock,
            seat,
        }),
        Err(LinkFault::NoMemory) => Err(WireError::NoMemory),
    }
}

/// The run, with a hub of which this is the first seat.
fn run_staffed<R: Threads + Wait + Clone + Drop + Sync, G: Gate + Sync, P: Peer + Send>(
    rt: &R,
    alloc: Global,
    n: u32,
    gate: &G,
    lock: Arc<HubLock>,
    seat: Seat,
    peer: &mut P,
) -> Result<ThreadsRun, WireError>
    requires { IsSeatOf (arc_value lock) seat }
    ensures seat { IfOk result (λ run. IsSeatOf (arc_value run.lock) run.seat) }
    ensures ran { IfOk result (λ run. RanInThreads
        (Rose (P.Feed.faults peer.old) (P.Feed.faults peer.new))
        (P.Feed.inputs peer.old) (P.Feed.inputs peer.new)
        (P.Feed.frames peer.old) (P.Feed.frames peer.new)
        run.trace.items run.outcome (view_of run.seat)) }
    ensures cause { IfOk result (λ run. run.outcome ≡ Err error.LinkFault
        → Rose (P.Feed.faults peer.old) (P.Feed.faults peer.new)) }
    ensures memory { IfErr result (λ e. e ≡ NoMemory) }
{
    let (server, team) = staff(rt, alloc, n, &lock, seat)?;
    let bells = Bells::new(alloc, n)?;
    let Some(done) = run_both(rt, alloc, gate, &bells, &lock, peer, server, team) else {
        return Err(WireError::NoMemory);
    };
    let (served, theirs) = done;
    Ok(joined(lock, served, theirs))
}

/// The run, with the writers' seat joined into the session's.
fn joined(lock: Arc<HubLock>, served: Served, theirs: Seat) -> ThreadsRun
    requires own { IsSeatOf (arc_value lock) served.seat }
    requires theirs { IsSeatOf (arc_value lock) theirs }
    ensures outcome { result.outcome ≡ served.outcome }
    ensures trace { result.trace ≡ served.trace }
    ensures seat { IsSeatOf (arc_value result.lock) result.seat }
    ensures meets { Meets (view_of served.seat) (view_of theirs) (view_of result.seat) }
{
    let Served {
        outcome,
        trace,
        mut seat,
    } = served;
    lock.join(&mut seat, theirs);
    ThreadsRun {
        outcome,
        trace,
        lock,
        seat,
    }
}
