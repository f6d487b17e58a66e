// A payload of the peer's, which was opened.
ghost use Rattle.std.specs.Prelude.{◌≡◌, cond};
ghost use Rattle.ssh_auth.specs.Plan.{Plan};
ghost use Rattle.ssh_rules.specs.Outcome.{Outcome};
ghost use Rattle.ssh_rules.specs.World.{World, hears, is_empty};
ghost use Rattle.ssh_rules.specs.Run.{OwesPayload};
ghost use Rattle.ssh_serving.specs.Handing.{CompletesTo, IsCutInRow};
ghost use Rattle.ssh_serving.specs.Serve.{Stays, Refines, IsSuited};

use crate::Server;
use crate::outside::Outside;
use ssh_keys::Verifier;
use ssh_rules::{ConnectionMessage, Flow, Gate, Passage, RunError, payload_gate};
use ssh_wire::fields_of;

/// How many keepalive ticks count behind this payload: one that is not empty is a sign of life.
fn ticks_behind(payload: &[u8], keepalives: u64) -> u64
    ensures { result ≡ cond (is_empty payload.now) keepalives 0 }
{
    if payload.is_empty() { keepalives } else { 0 }
}

impl Server {
    /// A payload: the peer was heard by it, what is of an exchange of keys goes to that, and what
    /// may come is read, by its number.
    pub fn serve_payload<O: Outside, V: Verifier>(
        &mut self,
        outside: &mut O,
        verifier: &V,
        moment: u64,
        payload: &[u8],
    ) -> Result<Flow, RunError<O::Error, O::KexError>>
        requires suits { IsSuited O.suits self.old }
        ensures does { (w : World) → Refines self.old w → (plan : Plan Outcome)
            × OwesPayload (V.accepts verifier.now) (hears payload.now w) moment payload.now plan
            × CompletesTo IsCutInRow plan (O.Transport.heard outside.old)
            (O.Transport.heard outside.new) self.new result }
        ensures stays { Stays O.Transport.heard self.old self.new outside.old outside.new }
    {
        self.keepalives = ticks_behind(payload, self.keepalives);
        let window = self.common.config.window_size;
        match self.keys.admit(window, payload) {
            Passage::Begins => {
                self.begin_exchange(outside)?;
                self.step_exchange(outside, payload)?;
                Ok(Flow::Continue)
            }
            Passage::Steps => {
                self.step_exchange(outside, payload)?;
                Ok(Flow::Continue)
            }
            Passage::Barred => Err(RunError::Inconsistent),
            Passage::Late => Err(RunError::Pending),
            Passage::Passes => match payload_gate(&self.common.config, &self.state, payload) {
                Gate::Nothing => Ok(Flow::Continue),
                Gate::Ends => Ok(Flow::Ended),
                Gate::OverCap => self.serve_over_cap(),
                Gate::ServiceRequest => self.serve_service_request(outside, fields_of(payload)),
                Gate::UserauthRequest => {
                    self.serve_userauth_request(outside, verifier, moment, payload)
                }
                Gate::InfoResponse => self.serve_info_response(outside, moment, payload),
                Gate::ChannelOpen => self.serve_channel_open(outside, fields_of(payload)),
                Gate::OpenConfirmation => {
                    self.serve_open_confirmation(outside, fields_of(payload))
                }
                // (as the next, by itself: data come most, and what the others say is larger to move)
                Gate::Connection(ConnectionMessage::Data) => {
                    let spoken = self.read_message(ConnectionMessage::Data, fields_of(payload))?;
                    self.serve_spoken(outside, spoken)?;
                    Ok(Flow::Continue)
                }
                Gate::Connection(message) => {
                    let spoken = self.read_message(message, fields_of(payload))?;
                    self.serve_spoken(outside, spoken)?;
                    Ok(Flow::Continue)
                }
            },
        }
    }
}
