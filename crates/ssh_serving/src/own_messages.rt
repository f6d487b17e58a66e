// Messages of no channel that this side sends: global requests (RFC 4254 sections 4 and 7.1), and
// those of the transport (RFC 4253 section 11).
ghost use Rattle.std.specs.Prelude.{◌≡◌, ◌<◌, IfOk, IfErr};
ghost use Rattle.std.specs.Prelude.{OnOk, OnErr};
ghost use Rattle.std.specs.VecDeque.{deque_len, deque_capacity};
ghost use Rattle.ssh_rules.specs.declared.error.RunError.TheVariants as error;
ghost use Rattle.ssh_rules.specs.World.{World, awaits, ends_by};
ghost use Rattle.ssh_rules.specs.Effect.{said, sends};
ghost use Rattle.ssh_rules.specs.OwnMessages.{OwnMessage, IsBuilt, IsUnbuilt};
ghost use Rattle.ssh_serving.specs.Serve.{Refines, HasEffect, IsSameServer, IsUnchanged};

use crate::Server;
use crate::commands::Done;
use ssh_link::{CommandOutcome, Refusal};
use ssh_messages::frame_at_once;
use ssh_rules::{Outstanding, RunError};
use ssh_wire::WireError;

impl Server {
    /// A message with this payload goes out, or is refused where it is too long.
    pub(crate) fn send<E, F>(
        &mut self,
        payload: Result<Vec<u8>, WireError>,
        awaited: Option<Outstanding>,
        ends: bool,
    ) -> Result<Done, RunError<E, F>>
        ensures does { (message : OwnMessage) →
            IfOk payload (λ p. IsBuilt message.payload p.items) →
            IfErr payload (IsUnbuilt message.payload) → message.awaited ≡ awaited →
            message.ends ≡ ends → (w : World) → Refines self.old w →
            HasEffect (sends message w) self.new result }
        ensures unchanged { OnErr result (IsUnchanged self.old self.new) }
        ensures session { IsSameServer self.old self.new }
    {
        match payload {
            Ok(payload) => {
                self.say(payload, awaited, ends)?;
                Ok(Done::quiet(CommandOutcome::Accepted))
            }
            Err(WireError::TooLong) => Ok(Done::quiet(CommandOutcome::Refused(Refusal::TooLong))),
            Err(_) => Err(RunError::NoMemory),
        }
    }

    /// A message of no channel is written; its reply is waited for, or the connection is over with
    /// it.
    pub(crate) fn say<E, F>(
        &mut self,
        payload: Vec<u8>,
        awaited: Option<Outstanding>,
        ends: bool,
    ) -> Result<(), RunError<E, F>>
        ensures world { OnOk result ((w : World) → Refines self.old w → Refines self.new
            (said (record { payload = payload.items; awaited = awaited; ends = ends }) w)) }
        ensures memory { IfErr result (λ e. e ≡ error.NoMemory) }
        ensures unchanged { OnErr result (IsUnchanged self.old self.new) }
        ensures session { IsSameServer self.old self.new }
    {
        let frame = frame_at_once(payload)?;
        self.outstanding.reserve(1)?;
        self.table.stage(frame)?;
        self.await_reply(awaited);
        self.end_by(ends);
        Ok(())
    }

    /// The reply to a request is waited for, behind those that came before, where there is one.
    /// There is room for it.
    fn await_reply(&mut self, awaited: Option<Outstanding>)
        requires room { deque_len self.old.outstanding < deque_capacity self.old.outstanding }
        ensures world { (w : World) → Refines self.old w → Refines self.new (awaits awaited w) }
        ensures session { IsSameServer self.old self.new }
    {
        if let Some(request) = awaited {
            self.outstanding.push_back_reserved(request);
        }
    }

    /// The connection is ended, or stays as it is.
    fn end_by(&mut self, ends: bool)
        ensures world { (w : World) → Refines self.old w → Refines self.new (ends_by ends w) }
        ensures session { IsSameServer self.old self.new }
    {
        self.common.disconnected = self.common.disconnected || ends;
    }
}
