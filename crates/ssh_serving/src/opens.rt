// Opens of the peer, and their answers (RFC 4254 section 5.1).
ghost use Rattle.std.specs.Prelude.{◌≡◌, ◌≢◌, ◌<◌, ◌^◌, ◌⊎◌, ℕ, Some, None, length};
ghost use Rattle.std.specs.Prelude.{IfOk, IfErr, IsErrOf, OnErr};
ghost use Rattle.ssh_wire.specs.Open.{open_failure};
ghost use Rattle.ssh_wire.specs.OpenFailures.{open_failure_code};
ghost use Rattle.ssh_channels.specs.declared.error.TableError.TheVariants.{NoMemory};
ghost use Rattle.ssh_channels.specs.Lines.{next_number};
ghost use Rattle.ssh_rules.specs.World.{World};
ghost use Rattle.ssh_rules.specs.Types.{type_refusal};
ghost use Rattle.ssh_rules.specs.Reading.{Said, SaysOpen, Open};
ghost use Rattle.ssh_rules.specs.Rows.{row, owed, waits, asks_first, turns_first};
ghost use Rattle.ssh_rules.specs.Opens.{opening_of};
ghost use Rattle.ssh_rules.specs.Effect.{decides_open, confirms, fails_open, failure_of};
ghost use Rattle.ssh_serving.specs.Serve.{Stays, Acted, Refines, Completes, Turned, IsSuited};
ghost use Rattle.ssh_serving.specs.Serve.{HasEffect, IsSameServer, IsUnchanged};

use crate::Server;
use crate::commands::Done;
use crate::outside::Outside;
use crate::peer_open::PeerOpen;
use ssh_auth::{Lent, OpenType};
use ssh_channels::{ChannelParams, TableError};
use ssh_link::{CommandOutcome, Notice, OpenAnswer, Refusal};
use ssh_messages::{confirmation_frame, failure_frame, type_refusal_frame};
use ssh_rules::{Flow, Handling, RunError, handled_by};
use ssh_wire::{ChannelId, ChannelOpenFailure, OpenChannelMessage, Reader, Text, WireError};

impl Server {
    /// CHANNEL_OPEN.
    pub(crate) fn serve_channel_open<O: Outside>(
        &mut self,
        outside: &mut O,
        fields: &[u8],
    ) -> Result<Flow, RunError<O::Error, O::KexError>>
        requires suits { IsSuited O.suits self.old }
        ensures does { (w : World) (moment : ℕ) → Refines self.old w →
            (said : Said) × SaysOpen fields.now said
            × Completes (row w moment said) (O.Transport.heard outside.old)
            (O.Transport.heard outside.new) self.new result }
        ensures stays { Stays O.Transport.heard self.old self.new outside.old outside.new }
    {
        let mut reader = Reader::new(fields);
        match OpenChannelMessage::parse(self.alloc, &mut reader) {
            Ok(message) => {
                self.open(outside, message)?;
                Ok(Flow::Continue)
            }
            Err(e) => Err(RunError::from(e)),
        }
    }

    /// The open draws the next number, and is handled by its type.
    fn open<O: Outside>(
        &mut self,
        outside: &mut O,
        message: OpenChannelMessage,
    ) -> Result<(), RunError<O::Error, O::KexError>>
        requires suits { IsSuited O.suits self.old }
        requires packets { message.recipient_maximum_packet_size ≢ 0 }
        ensures does { Acted O.Transport.heard (λ w. owed w (Open message)) self.old self.new outside.old outside.new result }
        ensures stays { Stays O.Transport.heard self.old self.new outside.old outside.new }
    {
        let said = PeerOpen {
            peer: message.recipient_channel,
            window: message.recipient_window_size,
            packet: message.recipient_maximum_packet_size,
        };
        match handled_by(message.typ, self.no_more_sessions) {
            Handling::Asks(kind) => self.ask_open(outside, said, kind),
            Handling::GivenUp => self.turn_away(
                said.peer,
                ChannelOpenFailure::AdministrativelyProhibited,
                "No more sessions",
            ),
            Handling::Unsupported => self.turn_away(
                said.peer,
                ChannelOpenFailure::AdministrativelyProhibited,
                "Unsupported channel type",
            ),
            Handling::Unknown => self.turn_away(
                said.peer,
                ChannelOpenFailure::UnknownChannelType,
                "Unknown channel type",
            ),
        }
    }

    /// The open waits for its answer, and the handler is asked.
    fn ask_open<O: Outside>(
        &mut self,
        outside: &mut O,
        said: PeerOpen,
        kind: OpenType,
    ) -> Result<(), RunError<O::Error, O::KexError>>
        requires suits { IsSuited O.suits self.old }
        ensures does { Acted O.Transport.heard (λ w. asks_first (next_number w.channels.lines) said kind) self.old self.new outside.old outside.new result }
        ensures stays { Stays O.Transport.heard self.old self.new outside.old outside.new }
    {
        match self.draw(said) {
            Ok(number) => self.call(outside, None, Lent::Opens(number, kind)),
            Err(e) => {
                drop(kind);
                Err(RunError::from(e))
            }
        }
    }

    /// The next number is drawn for an open of the peer that said this of itself. `Full` where
    /// every number is taken.
    fn draw(&mut self, said: PeerOpen) -> Result<ChannelId, TableError>
        ensures number { (w : World) → Refines self.old w →
            IfOk result (λ number. next_number w.channels.lines ≡ Some number.0) }
        ensures world { (w : World) → Refines self.old w →
            IfOk result (λ number. Refines self.new (waits number.0 said w)) }
        ensures full { (w : World) → Refines self.old w → IsErrOf result TableError.Full →
            next_number w.channels.lines ≡ None }
        ensures errors { IfErr result (λ e. (e ≡ NoMemory) ⊎ (e ≡ TableError.Full)) }
        ensures session { IsSameServer self.old self.new }
    {
        let number = self.table.new_channel_id()?;
        self.opens.insert(number.0, said)?;
        Ok(number)
    }

    /// The open is refused by its type, and its number is free again.
    fn turn_away<E, F>(
        &mut self,
        peer: u32,
        reason: ChannelOpenFailure,
        description: &str,
    ) -> Result<(), RunError<E, F>>
        requires short { length description.now < 2 ^ 32 }
        ensures does { (w : World) → Refines self.old w →
            Turned (turns_first (next_number w.channels.lines)
            (type_refusal peer reason description.now)) w self.new result }
        ensures session { IsSameServer self.old self.new }
    {
        let number = self.table.new_channel_id()?;
        self.table.drop_pending(number);
        let frame = type_refusal_frame(self.alloc, number, peer, reason, description)?;
        self.table.stage(frame)?;
        Ok(())
    }

    /// The answer to an open of the peer (RFC 4254 section 5.1).
    pub(crate) fn decide_open<E, F>(&mut self, answer: OpenAnswer) -> Result<Done, RunError<E, F>>
        ensures does { (w : World) → Refines self.old w →
            HasEffect (decides_open answer (opening_of answer.channel.0 w) w) self.new result }
        ensures unchanged { OnErr result (IsUnchanged self.old self.new) }
        ensures session { IsSameServer self.old self.new }
    {
        let OpenAnswer {
            channel,
            rejection,
            texts,
        } = answer;
        let Some(opening) = self.opens.get(&channel.0).copied() else {
            drop(texts);
            return Ok(Done::quiet(CommandOutcome::Accepted));
        };
        match rejection {
            None => {
                drop(texts);
                self.confirm_open(channel, opening)
            }
            Some(reason) => self.refuse_open(channel, opening, reason, texts),
        }
    }

    /// The open becomes a channel.
    fn confirm_open<E, F>(
        &mut self,
        channel: ChannelId,
        said: PeerOpen,
    ) -> Result<Done, RunError<E, F>>
        ensures does { (w : World) → Refines self.old w →
            HasEffect (confirms channel.0 said w) self.new result }
        ensures unchanged { OnErr result (IsUnchanged self.old self.new) }
        ensures session { IsSameServer self.old self.new }
    {
        let room = self.common.config.window_size;
        let own_packet = self.common.config.maximum_packet_size;
        let frame = confirmation_frame(self.alloc, channel, said.peer, room, own_packet)?;
        let params = ChannelParams::new(
            self.alloc,
            said.peer,
            channel,
            said.window,
            room,
            said.packet,
            own_packet,
        );
        self.table.insert_with(params, frame)?;
        let _ = self.opens.remove(&channel.0);
        Ok(Done {
            notice: Some(Notice::Ready {
                channel,
                window: said.window,
                packet: said.packet,
            }),
            outcome: CommandOutcome::Accepted,
        })
    }

    /// The open is refused, with these words or those of the reason.
    fn refuse_open<E, F>(
        &mut self,
        channel: ChannelId,
        said: PeerOpen,
        reason: ChannelOpenFailure,
        texts: Option<(Text, Text)>,
    ) -> Result<Done, RunError<E, F>>
        ensures does { (w : World) → Refines self.old w →
            HasEffect (fails_open channel.0 (failure_of said reason texts) w) self.new result }
        ensures unchanged { OnErr result (IsUnchanged self.old self.new) }
        ensures session { IsSameServer self.old self.new }
    {
        match texts {
            Some((description, language)) => {
                let done = self.fail_open(
                    channel,
                    said,
                    reason,
                    description.as_str(),
                    language.as_str(),
                );
                drop(description);
                drop(language);
                done
            }
            None => self.fail_open(channel, said, reason, reason.description(), "en"),
        }
    }

    fn fail_open<E, F>(
        &mut self,
        channel: ChannelId,
        said: PeerOpen,
        reason: ChannelOpenFailure,
        description: &str,
        language: &str,
    ) -> Result<Done, RunError<E, F>>
        ensures does { (w : World) → Refines self.old w →
            HasEffect (fails_open channel.0 (open_failure said.peer (open_failure_code reason)
            description.now language.now) w) self.new result }
        ensures unchanged { OnErr result (IsUnchanged self.old self.new) }
        ensures session { IsSameServer self.old self.new }
    {
        let alloc = self.alloc;
        match failure_frame(alloc, channel, said.peer, reason, description, language) {
            Ok(refusal) => {
                self.table.stage(refusal)?;
                self.table.drop_pending(channel);
                let _ = self.opens.remove(&channel.0);
                Ok(Done::quiet(CommandOutcome::Accepted))
            }
            Err(WireError::TooLong) => Ok(Done::quiet(CommandOutcome::Refused(Refusal::TooLong))),
            Err(_) => Err(RunError::NoMemory),
        }
    }
}
