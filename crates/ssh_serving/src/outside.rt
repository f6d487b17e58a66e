// Whom a session tells and asks, and what it tells and asks.
ghost use Rattle.std.specs.Prelude.{◌≡◌, ◌<◌, ◌^◌, ◌∷◌, [], ℕ, Bool, List, None, length, drop};
ghost use Rattle.std.specs.Prelude.{not};
ghost use Rattle.std.specs.Prelude.{Ok, Err, All, IfOk, OnOk, MatchResult};
ghost use Rattle.ssh_link.specs.Exchange.{IsKexinit, IsOfTransport};
ghost use Rattle.ssh_link.specs.declared.kex.KexCall.TheVariants.{Begun, Stepped};
ghost use Rattle.ssh_link.specs.declared.link.TraceEntry.TheVariants.{Noticed, Answered, Sent};
ghost use Rattle.ssh_handler.specs.declared.config.Config.{Config as ConfigOf};
ghost use Rattle.ssh_auth.specs.Serve.{IsNumbered};
ghost use Rattle.ssh_auth.specs.declared.call.Call.TheVariants.{AuthenticationBanner, AdjustWindow};
ghost use Rattle.ssh_auth.specs.declared.call.Call.TheVariants.{CommandDone};
ghost use Rattle.ssh_auth.specs.declared.question.Question.TheVariants.{Lends, Judges, Listens};
ghost use Rattle.ssh_auth.specs.Plan.{Plan, Ask};
ghost use Rattle.ssh_rules.specs.World.{World, in_exchange};
ghost use Rattle.ssh_rules.specs.Run.{wants_commands};
ghost use Rattle.ssh_rules.specs.Outcome.{Outcome};
ghost use Rattle.ssh_rules.specs.Acts.{Calls, done_all};
ghost use Rattle.ssh_rules.specs.Rows.{told_and_aimed, aims_if};
ghost use Rattle.ssh_rules.specs.Heard.{Heard, Gives, IsExchanged, IsCalled, AnswersRequest};
ghost use Rattle.ssh_rules.specs.Heard.{AnswersResponse, AreSame};
ghost use Rattle.ssh_rules.specs.Cause.{Puts};
ghost use Rattle.ssh_serving.specs.Serve.{Stays, Acted, Refines, Serves, IsSuited, lends};
ghost use Rattle.ssh_serving.specs.Serve.{TellsEach};

use crate::Server;
use bytes::Bytes;
use ssh_auth::{AuthError, AuthRequest, AuthStep, Happening, Judged, Lent};
use ssh_handler::Commands;
use ssh_keys::Verifier;
use ssh_link::{
    ChannelMsg, CommandList, CommandOutcome, Frame, KexFault, KexStep, LinkFault, Notice,
};
use ssh_rules::{ChannelRequest, RunError, user_let_in};
use ssh_wire::{ChannelId, Text};
use std::alloc::Global;
use std::collections::VecDeque;

/// What a session tells and asks but for its handler: a link and an exchange of keys.
pub trait Transport {
    /// Why a callback cannot go on.
    type Error: Drop;

    /// Why an exchange of keys cannot go on.
    type KexError: Drop;

    /// What was told and asked so far.
    ghost heard: { Self → Heard Self.Error Self.KexError };

    /// Tells the users of the channels what happened.
    fn notice(&mut self, notice: Notice) -> Result<(), LinkFault>
        ensures { Gives (heard self.old) (heard self.new) (Noticed notice) result };

    /// Answers what came of the command or the reply with this ticket.
    fn answer(&mut self, ticket: u64, outcome: CommandOutcome) -> Result<(), LinkFault>
        ensures { Gives (heard self.old) (heard self.new) (Answered ticket outcome) result };

    /// Hands a frame on to the peer.
    fn send(&mut self, frame: Frame) -> Result<(), LinkFault>
        ensures { Gives (heard self.old) (heard self.new) (Sent frame) result };

    /// Whether this side can begin an exchange of keys by itself.
    fn repeatable(&self) -> bool
        ensures { result ≡ (heard self.now).repeats };

    /// Begins an exchange of keys, and answers this side's KEXINIT (RFC 4253 section 7.1).
    fn begin_exchange(&mut self) -> Result<Bytes, KexFault<Self::KexError>>
        ensures begun { IsExchanged (heard self.old) (heard self.new) Begun result }
        ensures kexinit { IfOk result (λ payload. IsKexinit payload) };

    /// Hands a payload of the peer's to the exchange of keys (RFC 4253 section 7).
    fn step_exchange(&mut self, payload: &[u8]) -> Result<KexStep, KexFault<Self::KexError>>
        ensures stepped { IsExchanged (heard self.old) (heard self.new) (Stepped payload.now) result }
        ensures frames { IfOk result (λ step. All IsOfTransport step.frames) };
}

/// Whom a session tells and asks: these, and its handler.
pub trait Outside: Transport {
    /// The servers and the peers whose callbacks may be made.
    ghost suits: { ConfigOf → List ℕ → Type 0 };

    /// Asks for the banner (RFC 4252 section 5.4).
    fn banner(&mut self) -> Result<Option<Text>, Self::Error>
        ensures { IsCalled (Self.heard self.old)
            (Self.heard self.new) result (AuthenticationBanner result) };

    /// Serves a request of authentication (RFC 4252 section 5).
    fn request<V: Verifier>(
        &mut self,
        alloc: Global,
        auth: &mut AuthRequest,
        verifier: &V,
        session_id: &[u8],
        moment: u64,
        payload: &[u8],
    ) -> Result<AuthStep, AuthError<Self::Error>>
        requires session_id { length session_id.now < 2 ^ 32 }
        requires number { IsNumbered 50 payload.now }
        ensures { AnswersRequest (record
            { accepts = V.accepts verifier.now; session_id = session_id.now; moment = moment })
            (drop 1 payload.now) (Self.heard self.old)
            (Self.heard self.new) auth.old auth.new result };

    /// Serves a response to prompts (RFC 4256 section 3.4).
    fn response(
        &mut self,
        alloc: Global,
        auth: &mut AuthRequest,
        payload: &[u8],
    ) -> Result<AuthStep, AuthError<Self::Error>>
        requires number { IsNumbered 61 payload.now }
        ensures { AnswersResponse (drop 1 payload.now) (Self.heard self.old)
            (Self.heard self.new) auth.old auth.new result };

    /// Makes a callback, which is lent what the session lends, and answers the commands that it
    /// recorded.
    fn ask(&mut self, server: &Server, lent: Lent) -> Result<CommandList, Self::Error>
        requires suits { IsSuited suits server.now }
        ensures { Puts (Lends lent) (Self.heard self.old) (Self.heard self.new) result };

    /// Makes a callback that says whether something is granted, and answers that and the commands
    /// that it recorded.
    fn judge(&mut self, server: &Server, judged: Judged) -> Result<(bool, CommandList), Self::Error>
        requires suits { IsSuited suits server.now }
        ensures { MatchResult result
            (λ given. Puts (Judges judged) (Self.heard self.old) (Self.heard self.new)
            (Ok (record { granted = given.0; commands = given.1 })))
            (λ e. Puts (Judges judged) (Self.heard self.old) (Self.heard self.new) (Err e)) };

    /// Asks whether connections to an address are forwarded, and answers that, the port that the
    /// handler listens at, and the commands that it recorded.
    fn listen(
        &mut self,
        server: &Server,
        address: &str,
        port: u32,
    ) -> Result<(bool, u32, CommandList), Self::Error>
        requires suits { IsSuited suits server.now }
        ensures { MatchResult result
            (λ given. Puts (Listens address.now port) (Self.heard self.old) (Self.heard self.new)
            (Ok (record { granted = given.0; port = given.1; commands = given.2 })))
            (λ e. Puts (Listens address.now port) (Self.heard self.old) (Self.heard self.new)
            (Err e)) };

    /// Asks how large the window of a channel is from now on.
    fn adjust_window(&mut self, channel: ChannelId, current: u32) -> Result<u32, Self::Error>
        ensures { IsCalled (Self.heard self.old) (Self.heard self.new) result
            (AdjustWindow channel current result) };

    /// Tells what came of a command that a callback recorded.
    fn command_done(&mut self, place: usize, outcome: CommandOutcome) -> Result<(), Self::Error>
        ensures { IsCalled (Self.heard self.old) (Self.heard self.new) result
            (CommandDone place outcome result) };
}

/// Hands frames on, in order.
pub fn send_each<O: Transport>(
    outside: &mut O,
    frames: Vec<Frame>,
) -> Result<(), RunError<O::Error, O::KexError>>
    ensures does { TellsEach Sent frames.items (O.heard outside.old) (O.heard outside.new) result }
    ensures same { AreSame (O.heard outside.old) (O.heard outside.new) }
{
    for frame in frames {
        outside.send(frame)?;
    }
    Ok(())
}

/// Tells notices, in order, and takes them away as they are told.
pub fn tell_each<O: Transport>(
    outside: &mut O,
    notices: &mut VecDeque<Notice>,
) -> Result<(), RunError<O::Error, O::KexError>>
    ensures does { TellsEach Noticed notices.old.items (O.heard outside.old)
        (O.heard outside.new) result }
    ensures told { OnOk result (notices.new.items ≡ []) }
    ensures same { AreSame (O.heard outside.old) (O.heard outside.new) }
{
    for _told in 0..notices.len() {
        let Some(notice) = notices.pop_front() else {
            return Ok(());
        };
        outside.notice(notice)?;
    }
    Ok(())
}

impl Server {
    /// Whether commands are taken from outside: no exchange of keys runs, and on no channel data
    /// wait.
    pub fn commands_wanted(&self) -> bool
        ensures world { (w : World) → Refines self.now w → result ≡ wants_commands w }
        ensures lent { result ≡ (lends self.now).commands_wanted }
    {
        !self.keys.exchange.is_running() && !self.table.has_any_pending_data()
    }

    /// Whether answers to opens are taken from outside: no exchange of keys runs.
    pub fn replies_wanted(&self) -> bool
        ensures world { (w : World) → Refines self.now w → result ≡ not (in_exchange w) }
        ensures lent { result ≡ (lends self.now).replies_wanted }
    {
        !self.keys.exchange.is_running()
    }

    /// What a callback is lent. Nothing is recorded yet.
    pub fn lend(&self) -> Commands<'_>
        ensures { result ≡ lends self.now }
    {
        Commands::for_user(
            self.alloc,
            &self.table,
            &self.common.config,
            self.common.remote_sshid.as_slice(),
            self.commands_wanted(),
            self.replies_wanted(),
            user_let_in(&self.state, self.common.auth_user.as_str()),
        )
    }

    /// Makes a callback, which tells of the request `at` where there is one, and does the commands
    /// that it recorded.
    pub(crate) fn call<O: Outside>(
        &mut self,
        outside: &mut O,
        at: Option<ChannelRequest>,
        lent: Lent,
    ) -> Result<(), RunError<O::Error, O::KexError>>
        requires suits { IsSuited O.suits self.old }
        ensures does { Acted O.Transport.heard (λ w. Calls at lent ∷ []) self.old self.new outside.old outside.new result }
        ensures stays { Stays O.Transport.heard self.old self.new outside.old outside.new }
    {
        match outside.ask(self, lent) {
            Ok(commands) => self.finish_commands(outside, at, commands),
            Err(e) => Err(RunError::Handler(e)),
        }
    }

    /// Makes a callback that says whether something is granted, which is what the request `at` asks
    /// where there is one, and does the commands that it recorded.
    pub(crate) fn judge<O: Outside>(
        &mut self,
        outside: &mut O,
        at: Option<ChannelRequest>,
        judged: Judged,
    ) -> Result<bool, RunError<O::Error, O::KexError>>
        requires suits { IsSuited O.suits self.old }
        ensures does { (w : World) → Refines self.old w → (next : Bool → World → Plan Outcome) →
            Serves (Ask (Judges judged) (λ judgement. done_all at 0 judgement.commands w
            (next judgement.granted))) next (O.Transport.heard outside.old)
            (O.Transport.heard outside.new) self.new result }
        ensures stays { Stays O.Transport.heard self.old self.new outside.old outside.new }
    {
        match outside.judge(self, judged) {
            Ok((granted, commands)) => match self.finish_commands(outside, at, commands) {
                Ok(()) => Ok(granted),
                Err(e) => Err(e),
            },
            Err(e) => Err(RunError::Handler(e)),
        }
    }

    /// Asks whether connections to an address are forwarded, does the commands that the callback
    /// recorded, and answers that and the port that the handler listens at.
    pub(crate) fn listen<O: Outside>(
        &mut self,
        outside: &mut O,
        address: &str,
        port: u32,
    ) -> Result<(bool, u32), RunError<O::Error, O::KexError>>
        requires suits { IsSuited O.suits self.old }
        ensures does { (w : World) → Refines self.old w →
            (next : Bool → ℕ → World → Plan Outcome) →
            Serves (Ask (Listens address.now port) (λ listening. done_all None 0 listening.commands w
            (next listening.granted listening.port)))
            (λ given. next given.0 given.1) (O.Transport.heard outside.old)
            (O.Transport.heard outside.new) self.new result }
        ensures stays { Stays O.Transport.heard self.old self.new outside.old outside.new }
    {
        match outside.listen(self, address, port) {
            Ok((granted, bound, commands)) => match self.finish_commands(outside, None, commands) {
                Ok(()) => Ok((granted, bound)),
                Err(e) => Err(e),
            },
            Err(e) => Err(RunError::Handler(e)),
        }
    }

    /// Tells a message of a channel: its user by a notice, and the handler by a callback. It is the
    /// request `at`, where there is one. Between both the handler is asked for the next window,
    /// where the room was filled up to `filled` bytes.
    #[inline(always)]
    pub(crate) fn tell<O: Outside>(
        &mut self,
        outside: &mut O,
        at: Option<ChannelRequest>,
        channel: ChannelId,
        filled: Option<u32>,
        message: ChannelMsg,
        happening: Happening,
    ) -> Result<(), RunError<O::Error, O::KexError>>
        requires suits { IsSuited O.suits self.old }
        ensures does { Acted O.Transport.heard (λ w. told_and_aimed at channel filled message happening) self.old self.new outside.old outside.new result }
        ensures stays { Stays O.Transport.heard self.old self.new outside.old outside.new }
    {
        match outside.notice(Notice::Channel(channel, message)) {
            Ok(()) => {}
            Err(e) => {
                drop(happening);
                return Err(RunError::from(e));
            }
        }
        match self.aim(outside, channel, filled) {
            Ok(()) => self.call(outside, at, Lent::Happened(channel, happening)),
            Err(e) => {
                drop(happening);
                Err(e)
            }
        }
    }

    /// Where the room was filled up to so many bytes, asks how large the channel's window is from
    /// now on; 0 leaves it as it is.
    fn aim<O: Outside>(
        &mut self,
        outside: &mut O,
        channel: ChannelId,
        filled: Option<u32>,
    ) -> Result<(), RunError<O::Error, O::KexError>>
        ensures does { Acted O.Transport.heard (λ w. aims_if channel filled) self.old self.new outside.old outside.new result }
        ensures stays { Stays O.Transport.heard self.old self.new outside.old outside.new }
    {
        let Some(current) = filled else {
            return Ok(());
        };
        match outside.adjust_window(channel, current) {
            Ok(window) => {
                if window == 0 {
                    return Ok(());
                }
                let _is_there = self.table.set_target(channel, window);
                Ok(())
            }
            Err(e) => Err(RunError::Handler(e)),
        }
    }
}
