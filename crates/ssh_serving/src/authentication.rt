// Requests of authentication, and responses to prompts (RFC 4252, RFC 4256).
ghost use Rattle.std.specs.Prelude.{◌≡◌, ℕ, drop, None, [], ◌∷◌, IfOk, IfErr};
ghost use Rattle.ssh_wire.specs.declared.error.WireError.TheVariants.{NoMemory};
ghost use Rattle.ssh_auth.specs.Serve.{IsNumbered};
ghost use Rattle.ssh_rules.specs.declared.gate.Gate.TheVariants as gate;
ghost use Rattle.ssh_rules.specs.World.{World, circumstances, writes};
ghost use Rattle.ssh_rules.specs.Reading.{Said, Says, SaysResponse, Over_cap};
ghost use Rattle.ssh_auth.specs.declared.auth_step.AuthVerdict.TheVariants as verdict;
ghost use Rattle.ssh_auth.specs.Plan.{Finish};
ghost use Rattle.ssh_rules.specs.Acts.{Turns};
ghost use Rattle.ssh_rules.specs.Rows.{row, replied, rejection_hold, finishes, user_of};
ghost use Rattle.ssh_rules.specs.Gate.{IsRequesting};
ghost use Rattle.ssh_serving.specs.Serve.{Stays, Acted, IsSameServer, Refines, ComesTo, Does, Completes, Turned, IsSuited};
ghost use Rattle.ssh_rules.specs.Cause.{comes};

use crate::Server;
use crate::outside::Outside;
use bytes::Bytes;
use ssh_auth::{AuthStep, AuthVerdict, Lent};
use ssh_keys::Verifier;
use ssh_link::Frame;
use ssh_messages::too_many_attempts_frame;
use ssh_rules::{EncryptedState, Flow, RunError};
use ssh_wire::{Text, WireError};

impl Server {
    /// USERAUTH_REQUEST (RFC 4252 section 5).
    pub(crate) fn serve_userauth_request<O: Outside, V: Verifier>(
        &mut self,
        outside: &mut O,
        verifier: &V,
        moment: u64,
        payload: &[u8],
    ) -> Result<Flow, RunError<O::Error, O::KexError>>
        requires suits { IsSuited O.suits self.old }
        requires number { IsNumbered 50 payload.now }
        requires state { IsRequesting self.old.state }
        ensures does { (w : World) → Refines self.old w → (said : Said)
            × Says (circumstances (V.accepts verifier.now) w.settings moment) w
            gate.UserauthRequest (drop 1 payload.now) said
            × Completes (row w moment said) (O.Transport.heard outside.old)
            (O.Transport.heard outside.new) self.new result }
        ensures stays { Stays O.Transport.heard self.old self.new outside.old outside.new }
    {
        let EncryptedState::WaitingAuthRequest(auth) = &mut self.state else {
            return Ok(Flow::Continue);
        };
        let id = self.session_id.as_slice();
        let step = outside.request(self.alloc, auth, verifier, id, moment, payload)?;
        self.conclude(outside, moment, true, step)?;
        Ok(Flow::Continue)
    }

    /// USERAUTH_INFO_RESPONSE (RFC 4256 section 3.4), which is no request.
    pub(crate) fn serve_info_response<O: Outside>(
        &mut self,
        outside: &mut O,
        moment: u64,
        payload: &[u8],
    ) -> Result<Flow, RunError<O::Error, O::KexError>>
        requires suits { IsSuited O.suits self.old }
        requires number { IsNumbered 61 payload.now }
        requires state { IsRequesting self.old.state }
        ensures does { (w : World) → Refines self.old w → (said : Said)
            × SaysResponse (drop 1 payload.now) said
            × Completes (row w moment said) (O.Transport.heard outside.old)
            (O.Transport.heard outside.new) self.new result }
        ensures stays { Stays O.Transport.heard self.old self.new outside.old outside.new }
    {
        let requested = self.requested;
        let EncryptedState::WaitingAuthRequest(auth) = &mut self.state else {
            return Ok(Flow::Continue);
        };
        let step = outside.response(self.alloc, auth, payload)?;
        self.conclude(outside, moment, requested, step)?;
        Ok(Flow::Continue)
    }

    /// A request, or a response, is finished with its reply; `requested` says whether a
    /// USERAUTH_REQUEST was finished from then on.
    fn conclude<O: Outside>(
        &mut self,
        outside: &mut O,
        moment: u64,
        requested: bool,
        step: AuthStep,
    ) -> Result<(), RunError<O::Error, O::KexError>>
        requires suits { IsSuited O.suits self.old }
        ensures does { Acted O.Transport.heard (λ w. replied w moment requested step.reply step.verdict) self.old self.new outside.old outside.new result }
        ensures stays { Stays O.Transport.heard self.old self.new outside.old outside.new }
    {
        let AuthStep { reply, verdict } = step;
        match verdict {
            AuthVerdict::Accepted => self.accept(outside, requested, reply),
            AuthVerdict::Rejected { none_method } => {
                let hold_until = moment.saturating_add(self.rejection_hold(none_method));
                self.reply(requested, reply, Some(hold_until))
            }
            AuthVerdict::Continued => self.reply(requested, reply, None),
        }
    }

    /// How long a rejection is held, in milliseconds.
    fn rejection_hold(&self, none_method: bool) -> u64
        ensures { (w : World) → Refines self.now w →
            result ≡ rejection_hold w.settings.config none_method w.user.requested }
    {
        if none_method && !self.requested {
            return self
                .common
                .config
                .auth_rejection_time_initial
                .unwrap_or(self.common.config.auth_rejection_time);
        }
        self.common.config.auth_rejection_time
    }

    /// A reply, held until a moment where one is given.
    fn reply<E, F>(
        &mut self,
        requested: bool,
        payload: Bytes,
        hold_until: Option<u64>,
    ) -> Result<(), RunError<E, F>>
        ensures does { (w : World) → Refines self.old w →
            Turned (Turns (λ v. writes (record
            { payload = payload; hold_until = hold_until; channel = None } ∷ [])
            (finishes requested v)) ∷ []) w self.new result }
        ensures session { IsSameServer self.old self.new }
    {
        self.table.stage(Frame::new(payload, hold_until, None))?;
        self.requested = requested;
        Ok(())
    }

    /// The user whom the last request named.
    fn requested_user(&self) -> Result<Text, WireError>
        ensures ok { (w : World) → Refines self.now w →
            IfOk result (λ user. user ≡ user_of w.user.state) }
        ensures memory { IfErr result (λ e. e ≡ NoMemory) }
    {
        let EncryptedState::WaitingAuthRequest(auth) = &self.state else {
            return Text::new(self.alloc, "");
        };
        match auth.principal() {
            Some((user, _)) => Text::new(self.alloc, user),
            None => Text::new(self.alloc, ""),
        }
    }

    /// An accepted user: the handler is told, and the messages of the connection are read from now
    /// on.
    fn accept<O: Outside>(
        &mut self,
        outside: &mut O,
        requested: bool,
        reply: Bytes,
    ) -> Result<(), RunError<O::Error, O::KexError>>
        requires suits { IsSuited O.suits self.old }
        ensures does { (w : World) (moment : ℕ) → Refines self.old w →
            Does (replied w moment requested reply verdict.Accepted) w
            (O.Transport.heard outside.old) (O.Transport.heard outside.new) self.new result }
        ensures stays { Stays O.Transport.heard self.old self.new outside.old outside.new }
    {
        let user = self.requested_user()?;
        self.table.stage(Frame::new(reply, None, None))?;
        self.common.auth_user = user;
        self.state = EncryptedState::InitCompression;
        self.requested = requested;
        self.call(outside, None, Lent::Succeeded)
    }

    /// A request after as many rejected ones as are allowed: it is not read, and ends the run.
    pub(crate) fn serve_over_cap<E, F>(&mut self) -> Result<Flow, RunError<E, F>>
        ensures does { (w : World) (moment : ℕ) → Refines self.old w → ComesTo (row w moment Over_cap)
            (λ flow world. Finish (comes flow world)) ⊥ [] self.new result }
        ensures session { IsSameServer self.old self.new }
    {
        let disconnect = too_many_attempts_frame(self.alloc)?;
        self.table.stage(disconnect)?;
        Ok(Flow::Ended)
    }
}
