// A session that is driven by moves: payloads of the peer, commands between them, and handing on.
ghost use Rattle.std.specs.Prelude.{◌≡◌, ◌<◌, ◌^◌, [], false, length};
ghost use Rattle.ssh_rules.specs.Account.{told_by};
ghost use Rattle.ssh_session.specs.Between.{untold};
ghost use Rattle.ssh_session.specs.Serve.{Refines, BeginsSuited, IsSuited, is_spent};
ghost use Rattle.ssh_rules.specs.World.{World, Settings, settings_of, opening_world};
ghost use Rattle.ssh_drive.specs.Driven.{Driven, Makes};
ghost use Rattle.ssh_drive.specs.Moves.{placed};

use bytes::Bytes;
use ssh_channels::TableError;
use ssh_handler::{Config, Handler};
use ssh_keys::Verifier;
use ssh_link::{Command, Input, InputKind, Kex, Link};
use ssh_session::{Flow, FlushError, RunError, Session};
use ssh_wire::{ChannelId, WireError};
use std::alloc::Global;

/// What a program does next with its session: one call of `Session`.
#[derive(Debug, Drop)]
pub enum Move {
    /// It serves this opened payload of the peer, by `Session::step`.
    Payload(Bytes),
    /// It gives this command, by `Session::apply`. A command that is refused does nothing, and its
    /// outcome is not kept.
    Say(Command),
    /// It writes what waits on this channel, as far as the peer's grants go, by
    /// `Session::flush_pending`. How many bytes of data that are is not kept.
    LetOut(ChannelId),
    /// It hands on what was written, by `Session::flush`.
    HandOn,
}

/// Why a move was not finished, and the moves behind it were not made. `HE` is the handler's error,
/// `KE` that of the exchange of keys.
#[derive(Debug, Drop)]
pub enum MoveError<HE, KE> {
    /// There was no memory for the session, for a command, or for what a channel lets out.
    NoMemory,
    /// A payload was not served, for this reason.
    Payload(RunError<HE, KE>),
    /// What was written was not handed on, for this reason.
    HandOn(FlushError<KE>),
}

impl<HE, KE> From<WireError> for MoveError<HE, KE> {
    ghost use Rattle.ssh_drive.specs.declared.moves.MoveError.TheVariants as error;

    ghost from_gives = { λ _ e. e ≡ error.NoMemory };

    // `Session::new` and `Session::apply` answer no other error than want of memory.
    fn from(_: WireError) -> MoveError<HE, KE> {
        MoveError::NoMemory
    }
}

impl<HE, KE> From<TableError> for MoveError<HE, KE> {
    ghost use Rattle.ssh_drive.specs.declared.moves.MoveError.TheVariants as error;

    ghost from_gives = { λ _ e. e ≡ error.NoMemory };

    // `Session::flush_pending` answers no other error than want of memory.
    fn from(_: TableError) -> MoveError<HE, KE> {
        MoveError::NoMemory
    }
}

impl<HE, KE> From<RunError<HE, KE>> for MoveError<HE, KE> {
    ghost use Rattle.ssh_drive.specs.declared.moves.MoveError.TheVariants as error;

    ghost from_gives = { λ why e. e ≡ error.Payload why };

    fn from(why: RunError<HE, KE>) -> MoveError<HE, KE> {
        MoveError::Payload(why)
    }
}

impl<HE, KE> From<FlushError<KE>> for MoveError<HE, KE> {
    ghost use Rattle.ssh_drive.specs.declared.moves.MoveError.TheVariants as error;

    ghost from_gives = { λ why e. e ≡ error.HandOn why };

    fn from(why: FlushError<KE>) -> MoveError<HE, KE> {
        MoveError::HandOn(why)
    }
}

/// Drives a session from its beginning by these moves, all at one moment, in milliseconds since
/// 1970: in order, until one ends the connection (`Ended`) or fails.
///
/// It is for a program that waits for its sockets itself, and gives commands as its users ask for
/// them; one that reads its moves as they come writes the same loop of `Session::step`, `apply`,
/// `flush_pending` and `flush`, and has the same laws of it. The link is only told here: no input
/// is taken from it. The premises are those of `run_stream`: a session id under 4 GiB, and a
/// handler that suits the config and the line by which the peer's software names itself.
///
/// What is promised (`Driven`) follows from the contracts of these four calls alone. The handler
/// is called, and the link told, for these moves and for nothing else. After each move, what was
/// sent and written on each channel is the first of what it accepted, in order, and no more than
/// the peer granted; and after each that hands on outside an exchange of keys each channel has sent
/// exactly the first min(accepted, granted) bytes (RFC 4254 section 5.2). Nothing of the connection
/// is served before an accepted authentication (RFC 4252 section 6), whatever commands come between.
pub fn drive<H: Handler, V: Verifier, K: Kex, L: Link>(
    alloc: Global,
    config: &Config,
    session_id: &[u8],
    remote_sshid: &[u8],
    handler: &mut H,
    verifier: &V,
    kex: &mut K,
    link: &mut L,
    moment: u64,
    moves: Vec<Move>,
) -> Result<Flow, MoveError<H::Error, K::Error>>
    requires session_id { length session_id.now < 2 ^ 32 }
    requires suits { H.suits config.now remote_sshid.now }
    ensures driven { Driven (V.accepts verifier.now)
        (settings_of config.now session_id.now remote_sshid.now (K.repeats kex.old)) moment
        moves.items
        (told_by H.AuthHandler.told K.steps L.trace L.faults handler.old kex.old link.old)
        (told_by H.AuthHandler.told K.steps L.trace L.faults handler.new kex.new link.new) result }
{
    let mut session = Session::new(alloc, config, session_id, remote_sshid)?;
    let flow = drive_each(&mut session, handler, verifier, kex, link, moment, moves);
    drop(session);
    flow
}

// The loop, with a session before its first input.
fn drive_each<H: Handler, V: Verifier, K: Kex, L: Link>(
    session: &mut Session,
    handler: &mut H,
    verifier: &V,
    kex: &mut K,
    link: &mut L,
    moment: u64,
    moves: Vec<Move>,
) -> Result<Flow, MoveError<H::Error, K::Error>>
    requires begins { BeginsSuited H.suits session.old }
    requires told { untold session.old ≡ [] }
    ensures driven { (settings : Settings) → Refines session.old (opening_world settings) →
        settings.repeatable ≡ K.repeats kex.old →
        Driven (V.accepts verifier.now) settings moment moves.items
        (told_by H.AuthHandler.told K.steps L.trace L.faults handler.old kex.old link.old)
        (told_by H.AuthHandler.told K.steps L.trace L.faults handler.new kex.new link.new) result }
{
    for next in moves {
        match make(session, handler, verifier, kex, link, moment, next) {
            Ok(Flow::Continue) => {}
            Ok(Flow::Ended) => return Ok(Flow::Ended),
            Err(e) => return Err(e),
        }
    }
    Ok(Flow::Continue)
}

// One move, with a session that is not spent.
fn make<H: Handler, V: Verifier, K: Kex, L: Link>(
    session: &mut Session,
    handler: &mut H,
    verifier: &V,
    kex: &mut K,
    link: &mut L,
    moment: u64,
    next: Move,
) -> Result<Flow, MoveError<H::Error, K::Error>>
    requires live { is_spent session.old ≡ false }
    requires suits { IsSuited H.suits session.old }
    ensures made { (w : World) → Refines session.old w → w.settings.repeatable ≡ K.repeats kex.old →
        Makes (V.accepts verifier.now) moment (placed w (untold session.old)) next
        (told_by H.AuthHandler.told K.steps L.trace L.faults handler.old kex.old link.old)
        (told_by H.AuthHandler.told K.steps L.trace L.faults handler.new kex.new link.new)
        session.new result }
    ensures repeats { K.repeats kex.new ≡ K.repeats kex.old }
{
    match next {
        Move::Payload(payload) => {
            let kind = InputKind::Payload(payload);
            Ok(session.step(handler, verifier, kex, link, Input { moment, kind })?)
        }
        Move::Say(command) => {
            session.apply(command)?;
            Ok(Flow::Continue)
        }
        Move::LetOut(channel) => {
            session.flush_pending(channel)?;
            Ok(Flow::Continue)
        }
        Move::HandOn => {
            session.flush(kex, link)?;
            Ok(Flow::Continue)
        }
    }
}
