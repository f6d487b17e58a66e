// Opens of this side (RFC 4254 section 5.1).
ghost use Rattle.std.specs.Prelude.{◌≡◌, ◌≢◌, ◌<◌, ◌^◌, ℕ, OnErr};
ghost use Rattle.ssh_rules.specs.declared.messages.Spoken.TheVariants.{Failed};
ghost use Rattle.ssh_rules.specs.World.{World, is_waiting};
ghost use Rattle.ssh_rules.specs.Reading.{Said, SaysConfirmation};
ghost use Rattle.ssh_rules.specs.Rows.{row, confirmation_acts, spoken_acts};
ghost use Rattle.ssh_rules.specs.OwnOpens.{own_open_of};
ghost use Rattle.ssh_rules.specs.Effect.{no_user, lacks, opens_need, opens_or_not, opens};
ghost use Rattle.ssh_serving.specs.Serve.{Stays, Acted, Refines, Completes, HasEffect, IsSuited};
ghost use Rattle.ssh_serving.specs.Serve.{IsSameServer, IsUnchanged};

use crate::Server;
use crate::commands::Done;
use crate::outside::Outside;
use ssh_auth::Happening;
use ssh_link::{ChannelMsg, Command, CommandOutcome, Notice, Refusal};
use ssh_messages::{own_open_frame, put_own_fields, type_name};
use ssh_rules::{EncryptedState, Flow, RunError};
use ssh_wire::{ChannelId, ChannelOpenConfirmation, ChannelOpenFailure, Reader, WireError};

/// How many bytes the name and the own fields of a CHANNEL_OPEN have together at most: 17 bytes are
/// the other fields, and a payload has at most 2^32 - 1.
const MAX_OPEN_PARTS: usize = u32::MAX as usize - 17;

impl Server {
    /// CHANNEL_OPEN_CONFIRMATION. `Inconsistent` at a packet size of 0, and where no open of this
    /// side waits under its number.
    pub(crate) fn serve_open_confirmation<O: Outside>(
        &mut self,
        outside: &mut O,
        fields: &[u8],
    ) -> Result<Flow, RunError<O::Error, O::KexError>>
        requires suits { IsSuited O.suits self.old }
        ensures does { (w : World) (moment : ℕ) → Refines self.old w →
            (said : Said) × SaysConfirmation fields.now said
            × Completes (row w moment said) (O.Transport.heard outside.old)
            (O.Transport.heard outside.new) self.new result }
        ensures stays { Stays O.Transport.heard self.old self.new outside.old outside.new }
    {
        let mut reader = Reader::new(fields);
        match ChannelOpenConfirmation::parse(&mut reader) {
            Ok(message) => {
                reader.end()?;
                self.peer_confirms(outside, message)?;
                Ok(Flow::Continue)
            }
            Err(e) => Err(RunError::from(e)),
        }
    }

    /// The peer agrees to an open of this side, which is a channel from then on.
    fn peer_confirms<O: Outside>(
        &mut self,
        outside: &mut O,
        message: ChannelOpenConfirmation,
    ) -> Result<(), RunError<O::Error, O::KexError>>
        requires suits { IsSuited O.suits self.old }
        requires packets { message.maximum_packet_size ≢ 0 }
        requires window { message.initial_window_size < 2 ^ 32 }
        ensures does { Acted O.Transport.heard (λ w. confirmation_acts (is_waiting w message.recipient_channel) message) self.old self.new outside.old outside.new result }
        ensures stays { Stays O.Transport.heard self.old self.new outside.old outside.new }
    {
        let waited = self.table.confirm(&message)?;
        if !waited {
            return Err(RunError::Inconsistent);
        }
        let channel = ChannelId(message.recipient_channel);
        let window = message.initial_window_size;
        let packet = message.maximum_packet_size;
        outside.notice(Notice::Ready {
            channel,
            window,
            packet,
        })?;
        self.tell(
            outside,
            None,
            channel,
            None,
            ChannelMsg::Open {
                id: channel,
                max_packet_size: packet,
                window_size: window,
            },
            Happening::Confirmed {
                max_packet_size: packet,
                window_size: window,
            },
        )
    }

    /// The peer refuses an open of this side, which is gone. `Inconsistent` where it is a channel
    /// already.
    pub(crate) fn peer_fails<O: Outside>(
        &mut self,
        outside: &mut O,
        channel: ChannelId,
        reason: ChannelOpenFailure,
    ) -> Result<(), RunError<O::Error, O::KexError>>
        ensures does { Acted O.Transport.heard (λ w. spoken_acts w (Failed channel reason)) self.old self.new outside.old outside.new result }
        ensures stays { Stays O.Transport.heard self.old self.new outside.old outside.new }
    {
        if self.table.is_established(channel) {
            return Err(RunError::Inconsistent);
        }
        let waited = self.table.fail_open(channel);
        if !waited {
            return Ok(());
        }
        outside.notice(Notice::Channel(channel, ChannelMsg::OpenFailure(reason)))?;
        Ok(())
    }

    /// Why nothing can be opened or forwarded yet.
    pub(crate) fn no_user(&self) -> Option<Refusal>
        ensures { (w : World) → Refines self.now w → result ≡ no_user w.user.state }
    {
        match &self.state {
            EncryptedState::InitCompression | EncryptedState::Authenticated => None,
            _ => Some(Refusal::NotAuthenticated),
        }
    }

    /// Why a command cannot open a channel, where it would.
    pub(crate) fn no_opening(&self, command: &Command) -> Option<Refusal>
        ensures { (w : World) → Refines self.now w →
            result ≡ lacks w (opens_need (own_open_of command.now)) }
    {
        match type_name(command) {
            Some(_) => self.no_user(),
            None => None,
        }
    }

    /// A command that opens a channel; what a client alone may say does nothing.
    pub(crate) fn do_open<E, F>(&mut self, command: &Command) -> Result<Done, RunError<E, F>>
        ensures does { (w : World) → Refines self.old w →
            HasEffect (opens_or_not (own_open_of command.now) w) self.new result }
        ensures unchanged { OnErr result (IsUnchanged self.old self.new) }
        ensures session { IsSameServer self.old self.new }
    {
        let Some(name) = type_name(command) else {
            return Ok(Done::quiet(CommandOutcome::Accepted));
        };
        let mut fields = Vec::new(self.alloc);
        match put_own_fields(&mut fields, command) {
            Ok(()) => self.open_own(name, fields.as_slice()),
            Err(WireError::TooLong) => Ok(Done::quiet(CommandOutcome::Refused(Refusal::TooLong))),
            Err(_) => Err(RunError::NoMemory),
        }
    }

    /// An open of a channel of this type with these own fields.
    fn open_own<E, F>(&mut self, name: &str, fields: &[u8]) -> Result<Done, RunError<E, F>>
        ensures does { (w : World) → Refines self.old w →
            HasEffect (opens (record { name = name.now; fields = fields.now }) w) self.new result }
        ensures unchanged { OnErr result (IsUnchanged self.old self.new) }
        ensures session { IsSameServer self.old self.new }
    {
        if name.len().saturating_add(fields.len()) > MAX_OPEN_PARTS {
            return Ok(Done::quiet(CommandOutcome::Refused(Refusal::TooLong)));
        }
        let window = self.common.config.window_size;
        let packet = self.common.config.maximum_packet_size;
        let Some(number) = self.table.next_channel_id() else {
            return Ok(Done::quiet(CommandOutcome::Refused(Refusal::NumbersFull)));
        };
        let frame = own_open_frame(self.alloc, number, name, window, packet, fields)?;
        match self.table.new_channel_with(window, packet, frame) {
            Ok(channel) => Ok(Done::quiet(CommandOutcome::Opened(channel))),
            Err(_) => Err(RunError::NoMemory),
        }
    }
}
