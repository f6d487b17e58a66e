// A run: inputs from a link, one after another, each of them taken and finished, until one ends it.
ghost use Rattle.std.specs.Prelude.{◌≡◌, ◌≢◌, ◌<◌, ◌^◌, [], Ok, Err, OnOk, length, true};
ghost use Rattle.ssh_link.specs.Faults.{RoseIfKept};
ghost use Rattle.ssh_auth.specs.Plan.{Plan};
ghost use Rattle.ssh_rules.specs.Outcome.{Outcome};
ghost use Rattle.ssh_rules.specs.World.{World, Settings, settings_of, opening_world};
ghost use Rattle.ssh_rules.specs.Run.{OwesKind, Owes, asks_for_keys, begins, is_due, hand_on};
ghost use Rattle.ssh_rules.specs.Run.{handed_on, goes_unless_ended, is_over};
ghost use Rattle.ssh_rules.specs.Account.{told_by, RanTo, KeepsLaws};
ghost use Rattle.ssh_rules.specs.Cut.{IsCut};
ghost use Rattle.ssh_serving.specs.Handing.{CompletesTo, DoesTo, ServesTo, IsCutBefore};
ghost use Rattle.ssh_serving.specs.Handing.{IsCutBehind, IsCutByLink, IsCutInRow};
ghost use Rattle.ssh_serving.specs.Serve as served;
ghost use Rattle.ssh_session.specs.Between.{StepsBehind, CutsBehind, TakesBehind, OwesUnlessEnded};
ghost use Rattle.ssh_session.specs.Between.{untold};
ghost use Rattle.ssh_session.specs.Serve.{Refines, is_spent, IsSuited, BeginsSuited};

use crate::sides::Sides;
use crate::{Flow, RunError, Session};
use ssh_channels::FrameSink;
use ssh_handler::{Config, Handler};
use ssh_keys::Verifier;
use ssh_link::{Command, Input, InputKind, Kex, Link, Notice};
use ssh_rules::is_let_in;
use ssh_serving::{Outside, Server, Transport, send_each, tell_each};
use std::alloc::Global;
use std::collections::VecDeque;

/// Serves one connection: takes inputs from the link until one ends the run (`Ok`), an error comes,
/// or `max_inputs` of them were finished (`InputLimit`). `session_id` is that of the key exchange
/// (RFC 4253 section 7.2), at most 2^32 - 1 bytes; `remote_sshid` is the peer's identification
/// line. The handler has to suit the two (`Handler::suits`), as each does that does not say
/// otherwise, and every callback that is lent commands is lent this config and this line.
pub fn run_stream<H: Handler, V: Verifier, K: Kex, L: Link>(
    alloc: Global,
    config: &Config,
    session_id: &[u8],
    remote_sshid: &[u8],
    handler: &mut H,
    verifier: &V,
    kex: &mut K,
    link: &mut L,
    max_inputs: u64,
) -> Result<(), RunError<H::Error, K::Error>>
    requires session_id { length session_id.now < 2 ^ 32 }
    requires suits { H.suits config.now remote_sshid.now }
    ensures laws { KeepsLaws (told_by H.AuthHandler.told K.steps L.trace L.faults) L.starved
        max_inputs result (settings_of config.now session_id.now remote_sshid.now (K.repeats kex.old))
        (V.accepts verifier.now) handler.old kex.old link.old handler.new kex.new link.new }
{
    let mut session = Session::new(alloc, config, session_id, remote_sshid)?;
    let mut sides = Sides::new(handler, kex, link);
    let result = run_inputs(&mut session, &mut sides, verifier, max_inputs);
    drop(session);
    result
}

// The loop of a run, with a session before its first input.
fn run_inputs<H: Handler, V: Verifier, K: Kex, L: Link>(
    session: &mut Session,
    sides: &mut Sides<'_, H, K, L>,
    verifier: &V,
    max_inputs: u64,
) -> Result<(), RunError<H::Error, K::Error>>
    requires begins { BeginsSuited H.suits session.old }
    ensures same_handler { sides.new.handler.ghost_name ≡ sides.old.handler.ghost_name }
    ensures same_kex { sides.new.kex.ghost_name ≡ sides.old.kex.ghost_name }
    ensures same_link { sides.new.link.ghost_name ≡ sides.old.link.ghost_name }
    ensures ran { (settings : Settings) → Refines session.old (opening_world settings) →
        settings.repeatable ≡ K.repeats sides.old.kex.now → RanTo (V.accepts verifier.now) settings
        (told_by H.AuthHandler.told K.steps L.trace L.faults sides.old.handler.now
        sides.old.kex.now sides.old.link.now)
        (told_by H.AuthHandler.told K.steps L.trace L.faults sides.new.handler.now
        sides.new.kex.now sides.new.link.now) (RoseIfKept (L.starved sides.old.link.now)
        (L.starved sides.new.link.now)) max_inputs result }
{
    for _ in 0..max_inputs {
        let input = sides.link.next(
            session.server.commands_wanted(),
            session.server.replies_wanted(),
        )?;
        match take(&mut session.server, sides, verifier, input) {
            Ok(Flow::Continue) => {}
            Ok(Flow::Ended) => return Ok(()),
            Err(e) => return Err(e),
        }
    }
    Err(RunError::InputLimit)
}

impl Session {
    /// Takes one input and finishes it: tells the notices that commands since the last one gave,
    /// makes the callbacks that the input owes, and then hands its frames on: in an exchange of
    /// keys only the exchange's (RFC 4253 section 7.1), and the rest when it ends. Where the bytes
    /// of a direction are at their limit, or the input is a tick for new keys, it then begins an
    /// exchange (RFC 4253 section 9). Where such a command ended the connection, the input is not
    /// looked at: what was written is handed on, and the run is over. After an error or `Ended` the
    /// session is spent, and each later call answers `Inconsistent` and leaves handler, exchange
    /// and link as they are. The handler has to suit the config and the peer of the session
    /// (`Handler::suits`).
    pub fn step<H: Handler, V: Verifier, K: Kex, L: Link>(
        &mut self,
        handler: &mut H,
        verifier: &V,
        kex: &mut K,
        link: &mut L,
        input: Input,
    ) -> Result<Flow, RunError<H::Error, K::Error>>
        requires suits { is_spent self.old ≢ true → IsSuited H.suits self.old }
        ensures taken { (w : World) → Refines self.old w → w.settings.repeatable
            ≡ K.repeats kex.old → StepsBehind (untold self.old) (V.accepts verifier.now) w input
            (told_by H.AuthHandler.told K.steps L.trace L.faults) handler.old kex.old link.old
            handler.new kex.new link.new self.new result }
        ensures cut { (w : World) → Refines self.old w → w.settings.repeatable
            ≡ K.repeats kex.old → CutsBehind (untold self.old) (V.accepts verifier.now) w input
            (told_by H.AuthHandler.told K.steps L.trace L.faults) handler.old kex.old link.old
            handler.new kex.new link.new (RoseIfKept (L.starved link.old) (L.starved link.new))
            self.new result }
        ensures told { OnOk result (untold self.new ≡ []) }
        ensures repeats { K.repeats kex.new ≡ K.repeats kex.old }
        ensures spends { is_spent self.old ≢ true → result ≢ Ok Flow.Continue →
            is_spent self.new ≡ true }
        ensures refused { is_spent self.old ≡ true → result ≡ Err RunError.Inconsistent }
        ensures unchanged { is_spent self.old ≡ true → self.new ≡ self.old }
        ensures silent { is_spent self.old ≡ true → (handler.new ≡ handler.old)
            × (kex.new ≡ kex.old) × (link.new ≡ link.old) }
    {
        if self.spent {
            drop(input);
            return Err(RunError::Inconsistent);
        }
        let mut sides = Sides::new(handler, kex, link);
        let mut notices = self.take_untold();
        let outcome = self.step_behind(&mut sides, verifier, &mut notices, input);
        self.keep_untold(notices);
        outcome
    }

    /// An input behind these notices, over these three.
    fn step_behind<H: Handler, V: Verifier, K: Kex, L: Link>(
        &mut self,
        sides: &mut Sides<'_, H, K, L>,
        verifier: &V,
        notices: &mut VecDeque<Notice>,
        input: Input,
    ) -> Result<Flow, RunError<H::Error, K::Error>>
        requires suits { IsSuited H.suits self.old }
        ensures same_handler { sides.new.handler.ghost_name ≡ sides.old.handler.ghost_name }
        ensures same_kex { sides.new.kex.ghost_name ≡ sides.old.kex.ghost_name }
        ensures same_link { sides.new.link.ghost_name ≡ sides.old.link.ghost_name }
        ensures repeats { K.repeats sides.new.kex.now ≡ K.repeats sides.old.kex.now }
        ensures taken { (w : World) → Refines self.old w →
            w.settings.repeatable ≡ K.repeats sides.old.kex.now →
            CutsBehind notices.old.items (V.accepts verifier.now) w input
            (told_by H.AuthHandler.told K.steps L.trace L.faults) sides.old.handler.now
            sides.old.kex.now sides.old.link.now sides.new.handler.now sides.new.kex.now
            sides.new.link.now (RoseIfKept (L.starved sides.old.link.now)
            (L.starved sides.new.link.now)) self.new result }
        ensures told { OnOk result (notices.new.items ≡ []) }
        ensures spends { result ≢ Ok Flow.Continue → is_spent self.new ≡ true }
    {
        let outcome = take_behind(&mut self.server, sides, verifier, notices, input);
        self.note_end(&outcome);
        outcome
    }

    /// The session is spent by whatever does not let it continue.
    fn note_end<E, F>(&mut self, outcome: &Result<Flow, RunError<E, F>>)
        ensures continues { outcome.now ≡ Ok Flow.Continue → self.new ≡ self.old }
        ensures spent { outcome.now ≢ Ok Flow.Continue → is_spent self.new ≡ true }
    {
        match outcome {
            Ok(Flow::Continue) => {}
            _ => self.spent = true,
        }
    }
}

/// An input behind these notices, of a session that is not spent.
fn take_behind<O: Outside, V: Verifier>(
    server: &mut Server,
    outside: &mut O,
    verifier: &V,
    notices: &mut VecDeque<Notice>,
    input: Input,
) -> Result<Flow, RunError<O::Error, O::KexError>>
    requires suits { served.IsSuited O.suits server.old }
    ensures does { (w : World) → served.Refines server.old w → w.settings.repeatable
        ≡ (O.Transport.heard outside.old).repeats →
        TakesBehind notices.old.items (V.accepts verifier.now) w input
        (O.Transport.heard outside.old) (O.Transport.heard outside.new) server.new result }
    ensures told { OnOk result (notices.new.items ≡ []) }
    ensures stays { served.Stays O.Transport.heard server.old server.new outside.old outside.new }
{
    match tell_each(outside, notices) {
        Ok(()) => take_unless_ended(server, outside, verifier, input),
        Err(e) => {
            drop(input);
            Err(e)
        }
    }
}

/// An input, which is looked at unless a command ended the connection since the last one.
fn take_unless_ended<O: Outside, V: Verifier>(
    server: &mut Server,
    outside: &mut O,
    verifier: &V,
    input: Input,
) -> Result<Flow, RunError<O::Error, O::KexError>>
    requires suits { served.IsSuited O.suits server.old }
    ensures does { (w : World) → served.Refines server.old w → w.settings.repeatable
        ≡ (O.Transport.heard outside.old).repeats →
        (plan : Plan Outcome) ×
        OwesUnlessEnded w.disconnected (V.accepts verifier.now) w input plan
        × CompletesTo IsCut plan (O.Transport.heard outside.old)
        (O.Transport.heard outside.new) server.new result }
    ensures stays { served.Stays O.Transport.heard server.old server.new outside.old outside.new }
{
    if server.common.disconnected {
        drop(input);
        return end_run(server, outside);
    }
    take(server, outside, verifier, input)
}

/// An input of a session that is not spent.
fn take<O: Outside, V: Verifier>(
    server: &mut Server,
    outside: &mut O,
    verifier: &V,
    input: Input,
) -> Result<Flow, RunError<O::Error, O::KexError>>
    requires suits { served.IsSuited O.suits server.old }
    ensures does { (w : World) → served.Refines server.old w → w.settings.repeatable
        ≡ (O.Transport.heard outside.old).repeats →
        (plan : Plan Outcome) × Owes (V.accepts verifier.now) w input plan
        × CompletesTo IsCut plan (O.Transport.heard outside.old)
        (O.Transport.heard outside.new) server.new result }
    ensures stays { served.Stays O.Transport.heard server.old server.new outside.old outside.new }
{
    let Input { moment, kind } = input;
    let ticked = asks_for_keys(&kind);
    let flow = serve(server, outside, verifier, moment, kind)?;
    hand_on(server, outside)?;
    match flow {
        Flow::Continue => go_on(server, outside, ticked),
        Flow::Ended => Ok(Flow::Ended),
    }
}

/// An input, up to its end: makes the calls and tells the notices that it owes, and writes its
/// frames.
fn serve<O: Outside, V: Verifier>(
    server: &mut Server,
    outside: &mut O,
    verifier: &V,
    moment: u64,
    kind: InputKind,
) -> Result<Flow, RunError<O::Error, O::KexError>>
    requires suits { served.IsSuited O.suits server.old }
    ensures does { (w : World) → served.Refines server.old w → (plan : Plan Outcome)
        × OwesKind (V.accepts verifier.now) w moment kind plan
        × CompletesTo IsCutInRow plan (O.Transport.heard outside.old)
        (O.Transport.heard outside.new) server.new result }
    ensures stays { served.Stays O.Transport.heard server.old server.new outside.old outside.new }
{
    match kind {
        InputKind::Payload(payload) => {
            let flow = server.serve_payload(outside, verifier, moment, payload.as_slice());
            drop(payload);
            flow
        }
        InputKind::Command(ticket, command) => server.serve_command(outside, ticket, command),
        InputKind::OpenReply(ticket, answer) => {
            server.serve_command(outside, ticket, Command::Answer(answer))
        }
        InputKind::End => Ok(Flow::Ended),
        InputKind::KeepaliveTick => {
            server.keepalive_tick()?;
            Ok(Flow::Continue)
        }
        InputKind::InactivityTick => Err(RunError::InactivityTimeout),
        InputKind::RekeyTick => Ok(Flow::Continue),
    }
}

/// Whether the input is the tick that asks for new keys.
fn asks_for_keys(kind: &InputKind) -> bool
    ensures { result ≡ asks_for_keys kind.now }
{
    matches!(kind, InputKind::RekeyTick)
}

/// The written frames are handed on, unless they are held.
pub(crate) fn hand_on<O: Transport>(
    server: &mut Server,
    outside: &mut O,
) -> Result<(), RunError<O::Error, O::KexError>>
    ensures does { (w : World) → served.Refines server.old w → (next : World → Plan Outcome) →
        ServesTo IsCutByLink (hand_on w next) (λ _ _. next (handed_on w)) (O.heard outside.old)
        (O.heard outside.new) server.new result }
    ensures world { OnOk result ((w : World) → served.Refines server.old w →
        served.Refines server.new (handed_on w)) }
    ensures stays { served.Stays O.heard server.old server.new outside.old outside.new }
{
    let mut sink = FrameSink::new(server.alloc);
    let is_held = server.keys.exchange.is_running() && !server.common.disconnected;
    server.table.flush(&mut sink, is_held)?;
    let frames = sink.into_vec();
    server.keys.give(frames.as_slice());
    send_each(outside, frames)
}

/// Hands on what was written, with which the run is over.
fn end_run<O: Transport>(
    server: &mut Server,
    outside: &mut O,
) -> Result<Flow, RunError<O::Error, O::KexError>>
    ensures does { (w : World) → served.Refines server.old w → CompletesTo IsCutBehind (hand_on w is_over)
        (O.heard outside.old) (O.heard outside.new) server.new result }
    ensures stays { served.Stays O.heard server.old server.new outside.old outside.new }
{
    hand_on(server, outside)?;
    Ok(Flow::Ended)
}

/// The run is over where the connection was ended (RFC 4253 section 11.1); elsewhere it goes
/// on, and keys are exchanged where that is due.
fn go_on<O: Transport>(
    server: &mut Server,
    outside: &mut O,
    ticked: bool,
) -> Result<Flow, RunError<O::Error, O::KexError>>
    ensures does { (w : World) → served.Refines server.old w → w.settings.repeatable
        ≡ (O.heard outside.old).repeats → CompletesTo IsCutBehind (goes_unless_ended ticked w)
        (O.heard outside.old) (O.heard outside.new) server.new result }
    ensures stays { served.Stays O.heard server.old server.new outside.old outside.new }
{
    if server.common.disconnected {
        return Ok(Flow::Ended);
    }
    begin_where_due(server, outside, ticked)?;
    Ok(Flow::Continue)
}

/// At the end of an input, which may be the tick that asks for it, an exchange begins where one
/// is due.
pub(crate) fn begin_where_due<O: Transport>(
    server: &mut Server,
    outside: &mut O,
    ticked: bool,
) -> Result<(), RunError<O::Error, O::KexError>>
    ensures does { (w : World) → served.Refines server.old w → w.settings.repeatable
        ≡ (O.heard outside.old).repeats → DoesTo IsCutBefore (begins (is_due ticked w)) w
        (O.heard outside.old) (O.heard outside.new) server.new result }
    ensures stays { served.Stays O.heard server.old server.new outside.old outside.new }
{
    if !is_due(server, ticked, outside.repeatable()) {
        return Ok(());
    }
    server.begin_exchange(outside)
}

/// Whether this side begins an exchange at the end of an input, where it can begin one by
/// itself or not.
fn is_due(server: &Server, ticked: bool, repeatable: bool) -> bool
    ensures { (w : World) → served.Refines server.now w → repeatable ≡ w.settings.repeatable →
        result ≡ is_due ticked w }
{
    !server.keys.exchange.is_running()
        && is_let_in(&server.state)
        && repeatable
        && (ticked || server.keys.is_worn(&server.common.config.limits))
}
