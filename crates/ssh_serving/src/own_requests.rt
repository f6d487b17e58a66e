// Requests of this side on a channel (RFC 4254 section 5.4).
ghost use Rattle.std.specs.Prelude.{◌≡◌, ◌<◌, ◌^◌, length, OnErr};
ghost use Rattle.ssh_rules.specs.World.{World};
ghost use Rattle.ssh_rules.specs.Effect.{requests};
ghost use Rattle.ssh_rules.specs.OwnRequests as own;
ghost use Rattle.ssh_serving.specs.Serve.{Refines, HasEffect, IsSameServer, IsUnchanged};

use crate::Server;
use crate::commands::Done;
use ssh_link::{CommandOutcome, Refusal};
use ssh_messages::{put_exit_signal, request_frame};
use ssh_rules::RunError;
use ssh_wire::{ChannelId, Sig, Text, WireError};

/// How many bytes the name and the own fields of a CHANNEL_REQUEST have together at most: 10 bytes
/// are the other fields, and a payload has at most 2^32 - 1.
const MAX_REQUEST_PARTS: usize = u32::MAX as usize - 10;

impl Server {
    /// Which signal ended the program on the channel (RFC 4254 section 6.10).
    pub(crate) fn exit_signal<E, F>(
        &mut self,
        channel: ChannelId,
        signal: &Sig,
        core_dumped: bool,
        message: &Text,
        language: &Text,
    ) -> Result<Done, RunError<E, F>>
        ensures does { (w : World) → Refines self.old w →
            HasEffect (requests channel
            (own.exit_signal signal.now core_dumped message.now language.now) w) self.new result }
        ensures unchanged { OnErr result (IsUnchanged self.old self.new) }
        ensures session { IsSameServer self.old self.new }
    {
        let mut fields = Vec::new(self.alloc);
        match put_exit_signal(&mut fields, signal, core_dumped, message, language) {
            Ok(()) => self.request(channel, "exit-signal", fields.as_slice()),
            Err(WireError::TooLong) => Ok(Done::quiet(CommandOutcome::Refused(Refusal::TooLong))),
            Err(_) => Err(RunError::NoMemory),
        }
    }

    /// A request of this name with these own fields, which wants no reply.
    pub(crate) fn request<E, F>(
        &mut self,
        channel: ChannelId,
        name: &str,
        fields: &[u8],
    ) -> Result<Done, RunError<E, F>>
        requires short { length name.now < 2 ^ 32 }
        ensures does { (w : World) → Refines self.old w →
            HasEffect (requests channel (record { name = name.now; fields = fields.now }) w)
            self.new result }
        ensures unchanged { OnErr result (IsUnchanged self.old self.new) }
        ensures session { IsSameServer self.old self.new }
    {
        if name.len().saturating_add(fields.len()) > MAX_REQUEST_PARTS {
            return Ok(Done::quiet(CommandOutcome::Refused(Refusal::TooLong)));
        }
        match self.table.params(channel) {
            Some(line) => {
                let peer = line.recipient_channel;
                let frame = request_frame(self.alloc, channel, peer, name, fields)?;
                self.table.stage(frame)?;
                Ok(Done::quiet(CommandOutcome::Accepted))
            }
            None => Ok(Done::quiet(CommandOutcome::Accepted)),
        }
    }
}
