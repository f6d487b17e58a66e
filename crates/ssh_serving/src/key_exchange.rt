// The exchange of keys: where a payload goes meanwhile, and its calls (RFC 4253 section 7).
ghost use Rattle.std.specs.Prelude.{◌≡◌, ◌∷◌, [], map, All, OnOk, IfErr};
ghost use Rattle.ssh_link.specs.Exchange.{IsOfTransport};
ghost use Rattle.ssh_link.specs.declared.link.TraceEntry.TheVariants.{Sent};
ghost use Rattle.ssh_auth.specs.Plan.{Plan};
ghost use Rattle.ssh_channels.specs.declared.error.TableError.TheVariants.{NoMemory};
ghost use Rattle.ssh_rules.specs.Acts.{Exchanges, Beginning, Stepping, frames_given, gives};
ghost use Rattle.ssh_rules.specs.Acts.{tell_all};
ghost use Rattle.ssh_serving.specs.Handing.{lets_out, turns_keys};
ghost use Rattle.ssh_rules.specs.Outcome.{Outcome};
ghost use Rattle.ssh_serving.specs.Handing.{ServesTo, DoesTo, IsCutBefore};
ghost use Rattle.ssh_serving.specs.Serve.{Stays, Refines, IsSameServer};
ghost use Rattle.ssh_rules.specs.World.{World};

use crate::Server;
use crate::outside::{Transport, send_each};
use ssh_channels::TableError;
use ssh_messages::frames_of;
use ssh_rules::{ExchangeState, Keys, RunError, is_let_in};
use ssh_wire::Blobs;

impl Server {
    /// Begins an exchange: this side's KEXINIT is handed on at once.
    pub fn begin_exchange<O: Transport>(
        &mut self,
        outside: &mut O,
    ) -> Result<(), RunError<O::Error, O::KexError>>
        ensures does { (w : World) → Refines self.old w →
            DoesTo IsCutBefore (Exchanges Beginning ∷ []) w (O.heard outside.old)
            (O.heard outside.new) self.new
            result }
        ensures stays { Stays O.heard self.old self.new outside.old outside.new }
    {
        let payload = outside.begin_exchange()?;
        let mut payloads = Blobs::new(self.alloc);
        payloads.push(payload)?;
        self.give_payloads(outside, &payloads)?;
        self.keys.exchange = ExchangeState::Own(0);
        Ok(())
    }

    /// Hands a payload of the peer's to the exchange, and on at once what that gives. Where the new
    /// keys are in use with it, what was held and what waits can go out.
    pub(crate) fn step_exchange<O: Transport>(
        &mut self,
        outside: &mut O,
        payload: &[u8],
    ) -> Result<(), RunError<O::Error, O::KexError>>
        ensures does { (w : World) → Refines self.old w →
            DoesTo IsCutBefore (Exchanges (Stepping payload.now) ∷ []) w (O.heard outside.old)
            (O.heard outside.new) self.new result }
        ensures stays { Stays O.heard self.old self.new outside.old outside.new }
    {
        let step = outside.step_exchange(payload)?;
        self.let_out(step.done)?;
        self.give_payloads(outside, &step.frames)?;
        self.move_on(payload, step.done);
        Ok(())
    }

    /// Where the new keys are in use, what waits is written: it goes out behind what was held. No
    /// frame of the exchange was handed on yet, so that none was where memory is wanting.
    fn let_out(&mut self, done: bool) -> Result<(), TableError>
        ensures world { OnOk result ((w : World) → Refines self.old w →
            Refines self.new (lets_out done w)) }
        ensures memory { IfErr result (λ e. e ≡ NoMemory) }
        ensures session { IsSameServer self.old self.new }
    {
        if done {
            self.table.flush_all_pending()?;
        }
        Ok(())
    }

    /// What an exchange gives is handed on, whatever is held.
    fn give_payloads<O: Transport>(
        &mut self,
        outside: &mut O,
        payloads: &Blobs,
    ) -> Result<(), RunError<O::Error, O::KexError>>
        requires transport { All IsOfTransport payloads.now }
        ensures does { (w : World) → Refines self.old w → (next : Plan Outcome) →
            ServesTo IsCutBefore (tell_all (map Sent (frames_given payloads.now)) next) (λ _ _. next)
            (O.heard outside.old) (O.heard outside.new) self.new result }
        ensures world { OnOk result ((w : World) → Refines self.old w →
            Refines self.new (gives (frames_given payloads.now) w)) }
        ensures stays { Stays O.heard self.old self.new outside.old outside.new }
    {
        let frames = frames_of(self.alloc, payloads.as_slice())?;
        self.keys.give(frames.as_slice());
        send_each(outside, frames)
    }

    /// The exchange took a payload of the peer's, and the new keys are in use with it, or not yet.
    fn move_on(&mut self, payload: &[u8], done: bool)
        ensures world { (w : World) → Refines self.old w →
            Refines self.new (turns_keys payload.now done w) }
        ensures session { IsSameServer self.old self.new }
    {
        if done {
            self.keys = Keys::renewed();
        } else {
            self.keys.exchange.join(payload);
        }
    }
}
