// A session that is driven by the payloads of its peer alone.
ghost use Rattle.std.specs.Prelude.{◌≡◌, ◌<◌, ◌^◌, [], length};
ghost use Rattle.ssh_rules.specs.Account.{told_by};
ghost use Rattle.ssh_session.specs.Between.{untold};
ghost use Rattle.ssh_session.specs.Serve.{Refines, BeginsSuited};
ghost use Rattle.ssh_rules.specs.World.{Settings, settings_of, opening_world};
ghost use Rattle.ssh_drive.specs.Served.{Served};

use bytes::Bytes;
use ssh_handler::{Config, Handler};
use ssh_keys::Verifier;
use ssh_link::{Input, InputKind, Kex, Link};
use ssh_session::{Flow, RunError, Session};
use std::alloc::Global;

/// Serves payloads of the peer that are there already by a new session, all at one moment, in
/// milliseconds since 1970: in order, until one ends the connection (`Ended`) or fails.
///
/// It is for a program that waits for its sockets itself, and gives no commands but those that its
/// handler records; one that reads its payloads as they come writes the same loop of
/// `Session::step`, and has the same laws of it. The link is only told here: no input is taken from
/// it. The premises and the errors are those of `run_stream`, but for its limit of inputs.
///
/// What is promised (`Served`) follows from the contract of `Session::step` alone. The handler is
/// called, and the link told, for these payloads and for nothing else. Nothing of the connection is
/// served before an accepted authentication (RFC 4252 section 6); after each payload outside an
/// exchange of keys each channel has sent exactly the first min(accepted, granted) bytes (RFC 4254
/// section 5.2); the peer's opens and requests are answered as those of a run are; in an exchange of
/// keys only its own frames are handed on; no channel passes more data to the handler than was
/// granted there; and a DISCONNECT of this side is the last that happens.
pub fn serve_payloads<H: Handler, V: Verifier, K: Kex, L: Link>(
    alloc: Global,
    config: &Config,
    session_id: &[u8],
    remote_sshid: &[u8],
    handler: &mut H,
    verifier: &V,
    kex: &mut K,
    link: &mut L,
    moment: u64,
    payloads: Vec<Bytes>,
) -> Result<Flow, RunError<H::Error, K::Error>>
    requires session_id { length session_id.now < 2 ^ 32 }
    requires suits { H.suits config.now remote_sshid.now }
    ensures served { Served (V.accepts verifier.now)
        (settings_of config.now session_id.now remote_sshid.now (K.repeats kex.old)) payloads.items
        (told_by H.AuthHandler.told K.steps L.trace L.faults handler.old kex.old link.old)
        (told_by H.AuthHandler.told K.steps L.trace L.faults handler.new kex.new link.new) result }
{
    let mut session = Session::new(alloc, config, session_id, remote_sshid)?;
    let flow = serve_each(&mut session, handler, verifier, kex, link, moment, payloads);
    drop(session);
    flow
}

// The loop, with a session before its first input.
fn serve_each<H: Handler, V: Verifier, K: Kex, L: Link>(
    session: &mut Session,
    handler: &mut H,
    verifier: &V,
    kex: &mut K,
    link: &mut L,
    moment: u64,
    payloads: Vec<Bytes>,
) -> Result<Flow, RunError<H::Error, K::Error>>
    requires begins { BeginsSuited H.suits session.old }
    requires told { untold session.old ≡ [] }
    ensures served { (settings : Settings) → Refines session.old (opening_world settings) →
        settings.repeatable ≡ K.repeats kex.old →
        Served (V.accepts verifier.now) settings payloads.items
        (told_by H.AuthHandler.told K.steps L.trace L.faults handler.old kex.old link.old)
        (told_by H.AuthHandler.told K.steps L.trace L.faults handler.new kex.new link.new) result }
{
    for payload in payloads {
        let kind = InputKind::Payload(payload);
        match session.step(handler, verifier, kex, link, Input { moment, kind }) {
            Ok(Flow::Continue) => {}
            Ok(Flow::Ended) => return Ok(Flow::Ended),
            Err(e) => return Err(e),
        }
    }
    Ok(Flow::Continue)
}
