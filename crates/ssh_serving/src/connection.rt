// Messages of the connection protocol: what each says, and what is done by it (RFC 4254).
ghost use Rattle.std.specs.Prelude.{◌≡◌};
ghost use Rattle.ssh_rules.specs.declared.messages.Spoken.TheVariants.{Grant, Data};
ghost use Rattle.ssh_rules.specs.World.{World};
ghost use Rattle.ssh_rules.specs.Spelling.{IsRead};
ghost use Rattle.ssh_rules.specs.Globals.{oldest};
ghost use Rattle.ssh_rules.specs.Messages.{message_layout};
ghost use Rattle.ssh_rules.specs.Rows.{spoken_acts};
ghost use Rattle.ssh_rules.specs.Rows as rows;
ghost use Rattle.ssh_serving.specs.Serve.{Stays, Acted, Refines, Does, IsSuited};

use crate::Server;
use crate::outside::Outside;
use ssh_auth::Happening;
use ssh_channels::{Adjusted, Chunk};
use ssh_link::{ChannelMsg, Notice};
use ssh_messages::{
    close_message, data_message, data_told, eof_message, extended_data_message, failure_message,
    global_request_message, grant_message, open_failure_message, request_message, success_message,
};
use ssh_rules::{ConnectionMessage, Outstanding, RunError, Spoken};
use ssh_wire::{ChannelId, WireError};

impl Server {
    /// What the message says: one line a message.
    // (inlined, as what serves it is, since what it answers is large and would be moved)
    #[inline(always)]
    pub(crate) fn read_message(
        &self,
        message: ConnectionMessage,
        fields: &[u8],
    ) -> Result<Spoken, WireError>
        ensures { (w : World) → Refines self.now w →
            IsRead (message_layout w message) fields.now result }
    {
        match message {
            ConnectionMessage::GlobalRequest => global_request_message(self.alloc, fields),
            ConnectionMessage::RequestSuccess => success_message(self.oldest(), fields),
            ConnectionMessage::RequestFailure => failure_message(self.oldest(), fields),
            ConnectionMessage::OpenFailure => open_failure_message(fields),
            ConnectionMessage::WindowAdjust => grant_message(fields),
            ConnectionMessage::Data => data_message(self.alloc, &self.table, fields),
            ConnectionMessage::ExtendedData => extended_data_message(
                self.alloc,
                &self.table,
                fields,
            ),
            ConnectionMessage::Eof => eof_message(fields),
            ConnectionMessage::Close => close_message(fields),
            ConnectionMessage::Request => request_message(self.alloc, &self.table, fields),
        }
    }

    /// The oldest request of this side that waits for its reply.
    fn oldest(&self) -> Option<Outstanding>
        ensures { (w : World) → Refines self.now w → result ≡ oldest w.globals.outstanding }
    {
        match self.outstanding.front() {
            Some(first) => Some(*first),
            None => None,
        }
    }

    /// Does what a message says: one line a group of rows.
    #[inline(always)]
    pub(crate) fn serve_spoken<O: Outside>(
        &mut self,
        outside: &mut O,
        spoken: Spoken,
    ) -> Result<(), RunError<O::Error, O::KexError>>
        requires suits { IsSuited O.suits self.old }
        ensures does { Acted O.Transport.heard (λ w. spoken_acts w spoken) self.old self.new outside.old outside.new result }
        ensures stays { Stays O.Transport.heard self.old self.new outside.old outside.new }
    {
        match spoken {
            Spoken::Nothing => Ok(()),
            Spoken::Failed(channel, reason) => self.peer_fails(outside, channel, reason),
            Spoken::Grant(channel, amount) => self.grant(outside, channel, amount),
            Spoken::Data(channel, piece) => self.peer_data(outside, channel, piece),
            Spoken::Tells(channel, message, happening) => {
                self.tell_on(outside, channel, message, happening)
            }
            Spoken::Close(channel) => self.peer_close(outside, channel),
            Spoken::Requests(channel, wanted, message, happening) => {
                self.channel_requested(outside, channel, wanted, message, happening)
            }
            Spoken::RequestsAgent(channel, wanted) => self.agent_requested(
                outside, channel, wanted,
            ),
            Spoken::RequestsUnknown(channel, wanted) => self.unknown_requested(channel, wanted),
            Spoken::RequestsForward(wanted, address, port) => {
                self.forward_requested(outside, wanted, address, port)
            }
            Spoken::RequestsGlobally(wanted, judged) => self.globally_requested(
                outside, wanted, judged,
            ),
            Spoken::RequestsGloballyUnknown(wanted) => self.unknown_globally_requested(wanted),
            Spoken::GivesUpSessions(wanted) => self.gave_up_sessions(wanted),
            Spoken::Settles(told) => self.settle(outside, told),
            Spoken::Inconsistent => Err(RunError::Inconsistent),
        }
    }

    /// Tells this of a channel, where it is there.
    fn tell_on<O: Outside>(
        &mut self,
        outside: &mut O,
        channel: ChannelId,
        message: ChannelMsg,
        happening: Happening,
    ) -> Result<(), RunError<O::Error, O::KexError>>
        requires suits { IsSuited O.suits self.old }
        ensures does { Acted O.Transport.heard (λ w. rows.on channel.0 w (λ _. rows.told channel message happening)) self.old self.new outside.old outside.new result }
        ensures stays { Stays O.Transport.heard self.old self.new outside.old outside.new }
    {
        if !self.table.is_established(channel) {
            drop(message);
            drop(happening);
            return Ok(());
        }
        self.tell(outside, None, channel, None, message, happening)
    }

    /// The peer grants more: what waits goes out, as far as the credit goes.
    fn grant<O: Outside>(
        &mut self,
        outside: &mut O,
        channel: ChannelId,
        amount: u32,
    ) -> Result<(), RunError<O::Error, O::KexError>>
        requires suits { IsSuited O.suits self.old }
        ensures does { Acted O.Transport.heard (λ w. spoken_acts w (Grant channel amount)) self.old self.new outside.old outside.new result }
        ensures stays { Stays O.Transport.heard self.old self.new outside.old outside.new }
    {
        let Some(new_size) = self.table.grant(channel, amount, false)? else {
            return Ok(());
        };
        outside.notice(Notice::Granted { channel, amount })?;
        let message = ChannelMsg::WindowAdjusted { new_size };
        self.tell(
            outside,
            None,
            channel,
            None,
            message,
            Happening::WindowAdjusted { new_size },
        )
    }

    /// Data come in: those that are larger than the room are dropped. Both are told of the others,
    /// and the handler is asked for the next window where the room was filled up.
    #[inline(always)]
    fn peer_data<O: Outside>(
        &mut self,
        outside: &mut O,
        channel: ChannelId,
        piece: Chunk,
    ) -> Result<(), RunError<O::Error, O::KexError>>
        requires suits { IsSuited O.suits self.old }
        ensures does { Acted O.Transport.heard (λ w. spoken_acts w (Data channel piece)) self.old self.new outside.old outside.new result }
        ensures stays { Stays O.Transport.heard self.old self.new outside.old outside.new }
    {
        let target = self.table.target(channel);
        let sent = piece.bytes.as_slice();
        let filled = match self.table.adjust_window_size(channel, sent, target)? {
            Adjusted::Dropped => return Ok(()),
            Adjusted::Kept => None,
            Adjusted::Granted(_) => Some(target),
        };
        let copy = piece.bytes.clone()?;
        let (message, happening) = data_told(piece, copy);
        self.tell(outside, None, channel, filled, message, happening)
    }
}
