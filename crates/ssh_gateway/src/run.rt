// The turns of a gateway.
ghost use Rattle.std.specs.Prelude.{◌≡◌, ◌≢◌, ◌<◌, ◌-◌, ◌^◌, List, []};
ghost use Rattle.std.specs.Prelude.{Some, None, Err, OnOk, false, length};
ghost use Rattle.ssh_auth.specs.declared.call.Call.{Call};
ghost use Rattle.ssh_rules.specs.World.{World, Settings, settings_of, opening_world};
ghost use Rattle.ssh_session.specs.Between.{untold};
ghost use Rattle.ssh_session.specs.Serve.{Refines};
ghost use Rattle.ssh_gateway.specs.Admitting.{TellsAdmissions};
ghost use Rattle.ssh_gateway.specs.Board.{opening_board};
ghost use Rattle.ssh_gateway.specs.Doing.{IsNextCount};
ghost use Rattle.ssh_gateway.specs.Gateway.{Attended};
ghost use Rattle.ssh_gateway.specs.Serving.{ServesOrStops, TurnsOrBreaks, KeepsTelling};
ghost use Rattle.ssh_gateway.specs.Serving.{beneath, outside};

use crate::error::{link_error, lowered, target_error};
use crate::keeper::{Keeper, Notebook, Pin};
use crate::switchboard::Switchboard;
use crate::{GatewayError, Policy, Targets};
use ssh_auth::AuthHandler;
use ssh_handler::Config;
use ssh_keys::Verifier;
use ssh_link::{Input, Kex, Link};
use ssh_session::{Flow, Session};
use std::alloc::Global;
use std::marker::{Brand, PhantomData};

/// One input, with what it asks kept.
fn serve<A: AuthHandler, V: Verifier, K: Kex, L: Link, J: Pin>(
    session: &mut Session,
    keeper: &mut Keeper<'_, '_, A, J>,
    verifier: &V,
    kex: &mut K,
    link: &mut L,
    input: Input,
) -> Result<Flow, GatewayError<A::Error, K::Error>>
    ensures served { (w : World) (calls : List (Call A.Error)) → Refines session.old w →
        untold session.old ≡ [] → w.disconnected ≡ false →
        w.settings.repeatable ≡ K.repeats kex.old → keeper.old.notebook.now ≡ Some [] →
        A.told keeper.old.auth.now ≡ Some calls →
        ServesOrStops (V.accepts verifier.now) w input keeper.old.auth.ghost_name
        keeper.new.auth.ghost_name calls (A.told keeper.new.auth.now) keeper.new.notebook.now
        (beneath K.steps L.trace L.faults kex.old link.old)
        (beneath K.steps L.trace L.faults kex.new link.new) session.new result }
    ensures told { OnOk result (untold session.new ≡ []) }
    ensures repeats { K.repeats kex.new ≡ K.repeats kex.old }
    ensures unlimited { result ≢ Err GatewayError.TurnLimit }
{
    match session.step(keeper, verifier, kex, link, input) {
        Ok(flow) => Ok(flow),
        Err(why) => {
            let error = lowered(why);
            if keeper.notebook.is_lost() {
                drop(error);
                return Err(GatewayError::NoMemory);
            }
            Err(error)
        }
    }
}

/// One turn: an input is chosen and served, and what came of it goes to the targets.
fn turn<A: AuthHandler, V: Verifier, K: Kex, L: Link, P: Policy, T: Targets, J: Pin>(
    session: &mut Session,
    keeper: &mut Keeper<'_, '_, A, J>,
    verifier: &V,
    kex: &mut K,
    link: &mut L,
    policy: &P,
    targets: &mut T,
    board: &mut Switchboard,
) -> Result<Flow, GatewayError<A::Error, K::Error>>
    requires id { board.old.last_id < 2 ^ 64 - 1 }
    requires ticket { board.old.last_ticket < 2 ^ 64 - 1 }
    ensures turned { (w : World) (calls : List (Call A.Error)) → Refines session.old w →
        untold session.old ≡ [] → w.disconnected ≡ false →
        w.settings.repeatable ≡ K.repeats kex.old → keeper.old.notebook.now ≡ Some [] →
        A.told keeper.old.auth.now ≡ Some calls →
        TurnsOrBreaks (V.accepts verifier.now) (P.permits policy.now) board.old board.new w
        keeper.old.auth.ghost_name keeper.new.auth.ghost_name calls
        (A.told keeper.new.auth.now) keeper.new.notebook.now
        (outside K.steps L.trace L.faults T.told T.faults kex.old link.old targets.old)
        (outside K.steps L.trace L.faults T.told T.faults kex.new link.new targets.new)
        session.new result }
    ensures told { OnOk result (untold session.new ≡ []) }
    ensures repeats { K.repeats kex.new ≡ K.repeats kex.old }
    ensures counts { OnOk result (IsNextCount board.old board.new) }
    ensures unlimited { result ≢ Err GatewayError.TurnLimit }
{
    let chosen = match board.choose(session, policy, targets) {
        Ok(chosen) => chosen,
        Err(fault) => return Err(target_error(fault)),
    };
    let closes = chosen.closes;
    let input = match board.give(chosen.kind, link) {
        Ok(input) => input,
        Err(fault) => return Err(link_error(fault)),
    };
    let flow = match serve(session, keeper, verifier, kex, link, input) {
        Ok(flow) => flow,
        Err(error) => return Err(error),
    };
    match board.deliver(closes, keeper.notebook.asked(), targets) {
        Ok(()) => {
            keeper.notebook.clear();
            Ok(flow)
        }
        Err(fault) => Err(target_error(fault)),
    }
}

/// The turns of a session before its first input.
fn turns<A: AuthHandler, V: Verifier, K: Kex, L: Link, P: Policy, T: Targets, J: Pin>(
    session: &mut Session,
    keeper: &mut Keeper<'_, '_, A, J>,
    verifier: &V,
    kex: &mut K,
    link: &mut L,
    policy: &P,
    targets: &mut T,
    board: &mut Switchboard,
    max_turns: u64,
) -> Result<(), GatewayError<A::Error, K::Error>>
    requires board { board.old ≡ opening_board }
    requires told { untold session.old ≡ [] }
    ensures attended { (settings : Settings) (calls : List (Call A.Error)) →
        Refines session.old (opening_world settings) → settings.repeatable ≡ K.repeats kex.old →
        keeper.old.notebook.now ≡ Some [] → A.told keeper.old.auth.now ≡ Some calls →
        Attended (V.accepts verifier.now) (P.permits policy.now) settings max_turns
        (A.told keeper.new.auth.now ≡ None) (KeepsTelling keeper.old.auth.ghost_name keeper.new.auth.ghost_name calls
        (A.told keeper.new.auth.now))
        (outside K.steps L.trace L.faults T.told T.faults kex.old link.old targets.old)
        (outside K.steps L.trace L.faults T.told T.faults kex.new link.new targets.new) result }
{
    for _ in 0..max_turns {
        match turn(session, keeper, verifier, kex, link, policy, targets, board) {
            Ok(Flow::Continue) => {}
            Ok(Flow::Ended) => return Ok(()),
            Err(error) => return Err(error),
        }
    }
    Err(GatewayError::TurnLimit)
}

/// The turns of a session before its first input, in which this handler says who is let in; it is
/// given back.
fn turns_with<'a, A: AuthHandler, V: Verifier, K: Kex, L: Link, P: Policy, T: Targets, J: Pin>(
    session: &mut Session,
    auth: &'a mut A,
    notebook: &mut Notebook,
    verifier: &V,
    kex: &mut K,
    link: &mut L,
    policy: &P,
    targets: &mut T,
    board: &mut Switchboard,
    max_turns: u64,
    left: &mut Result<(), GatewayError<A::Error, K::Error>>,
) -> &'a mut A
    requires name { J.name ≡ auth.ghost_name }
    requires board { board.old ≡ opening_board }
    requires told { untold session.old ≡ [] }
    ensures same { result.ghost_name ≡ auth.entry.ghost_name }
    ensures attended { (settings : Settings) (calls : List (Call A.Error)) →
        Refines session.old (opening_world settings) → settings.repeatable ≡ K.repeats kex.old →
        notebook.old ≡ Some [] → A.told auth.entry.now ≡ Some calls →
        Attended (V.accepts verifier.now) (P.permits policy.now) settings max_turns
        (A.told result.now ≡ None) (TellsAdmissions calls (A.told result.now))
        (outside K.steps L.trace L.faults T.told T.faults kex.old link.old targets.old)
        (outside K.steps L.trace L.faults T.told T.faults kex.new link.new targets.new) left.new }
{
    let mut keeper: Keeper<'a, '_, A, J> = Keeper {
        auth,
        notebook,
        of: PhantomData,
    };
    *left = turns(
        session,
        &mut keeper,
        verifier,
        kex,
        link,
        policy,
        targets,
        board,
        max_turns,
    );
    let Keeper {
        auth,
        notebook: _,
        of: _,
    } = keeper;
    auth
}

/// Serves one connection to its end, and makes the connections to hosts that its peer opens
/// channels for (RFC 4254 section 7.2, direct-tcpip), where the policy allows them to the user who
/// was let in. It serves no other channel.
///
/// `auth` says who is let in. A turn is one input: the answer to the oldest open that waits; else,
/// of the first connection whose target has something, its data (at most 32768 bytes) or its end
/// of file, or the close of one of which both directions have ended; else what the link gives,
/// which is asked neither for commands nor for replies. After it data of the peer are written, its
/// end of file finishes and its close closes, and so does a close of the gateway's own. It is Ok
/// where an input ended the run. `session_id` is that of the key exchange (RFC 4253 section 7.2), at
/// most 2^32 - 1 bytes; `remote_sshid` is the line by which the peer's software named itself.
pub fn run_gateway<A: AuthHandler, V: Verifier, K: Kex, L: Link, P: Policy, T: Targets>(
    alloc: Global,
    config: &Config,
    session_id: &[u8],
    remote_sshid: &[u8],
    auth: &mut A,
    verifier: &V,
    kex: &mut K,
    link: &mut L,
    policy: &P,
    targets: &mut T,
    max_turns: u64,
) -> Result<(), GatewayError<A::Error, K::Error>>
    requires { length session_id.now < 2 ^ 32 }
    ensures gateway { (calls : List (Call A.Error)) → A.told auth.old ≡ Some calls →
        Attended (V.accepts verifier.now) (P.permits policy.now)
        (settings_of config.now session_id.now remote_sshid.now (K.repeats kex.old)) max_turns
        (A.told auth.new ≡ None) (TellsAdmissions calls (A.told auth.new))
        (outside K.steps L.trace L.faults T.told T.faults kex.old link.old targets.old)
        (outside K.steps L.trace L.faults T.told T.faults kex.new link.new targets.new) result }
{
    let mut session = match Session::new(alloc, config, session_id, remote_sshid) {
        Ok(session) => session,
        Err(_) => return Err(GatewayError::NoMemory),
    };
    let mut notebook = Notebook::new(alloc);
    let mut board = Switchboard::new(alloc);
    let mut result = Err(GatewayError::TurnLimit);
    turns_with::<A, V, K, L, P, T, Brand>(
        &mut session,
        auth,
        &mut notebook,
        verifier,
        kex,
        link,
        policy,
        targets,
        &mut board,
        max_turns,
        &mut result,
    );
    result
}
