// Replies to the requests of the peer on a channel, in the order of the requests (RFC 4254 section
// 5.4).
ghost use Rattle.std.specs.Prelude.{◌≡◌, IfOk, IfErr, OnOk, OnErr};
ghost use Rattle.ssh_channels.specs.declared.error.TableError.TheVariants.{NoMemory};
ghost use Rattle.ssh_rules.specs.declared.messages.Spoken.TheVariants.{Requests, RequestsAgent};
ghost use Rattle.ssh_rules.specs.declared.messages.Spoken.TheVariants.{RequestsUnknown};
ghost use Rattle.ssh_rules.specs.World.{World, lined, request_at, wants_if, settles_one};
ghost use Rattle.ssh_rules.specs.World.{settles_for, unless_ended};
ghost use Rattle.ssh_rules.specs.Effect.{accepts};
ghost use Rattle.ssh_rules.specs.Rows.{spoken_acts};
ghost use Rattle.ssh_serving.specs.Serve.{Stays, Acted, Refines, Turned, HasEffect, IsSameServer};
ghost use Rattle.ssh_serving.specs.Serve.{IsSuited, IsUnchanged};

use crate::Server;
use crate::commands::Done;
use crate::outside::Outside;
use ssh_auth::{Happening, Judged};
use ssh_channels::TableError;
use ssh_link::{ChannelMsg, CommandOutcome, Notice};
use ssh_rules::{ChannelRequest, RunError};
use ssh_wire::ChannelId;

impl Server {
    /// A request comes on the channel. Its reply is owed from now on, where it wants one.
    fn owe_reply(&mut self, channel: ChannelId, wanted: bool) -> Result<ChannelRequest, TableError>
        ensures asked { (w : World) → Refines self.old w →
            IfOk result (λ asked. asked ≡ request_at channel wanted w) }
        ensures world { OnOk result ((w : World) → Refines self.old w →
            Refines self.new (lined (wants_if wanted channel.0) w)) }
        ensures memory { IfErr result (λ e. e ≡ NoMemory) }
        ensures session { IsSameServer self.old self.new }
    {
        let place = if wanted {
            self.table.request(channel)?
        } else {
            None
        };
        Ok(ChannelRequest { channel, place })
    }

    /// The reply of this request is settled, if it is still owed.
    fn settle_one(&mut self, asked: ChannelRequest, success: bool) -> Result<(), TableError>
        ensures world { OnOk result ((w : World) → Refines self.old w →
            Refines self.new (lined (settles_one asked.place asked.channel.0 success) w)) }
        ensures memory { IfErr result (λ e. e ≡ NoMemory) }
        ensures unchanged { OnErr result (IsUnchanged self.old self.new) }
        ensures session { IsSameServer self.old self.new }
    {
        match asked.place {
            Some(place) => {
                let _was_owed = self.table.settle(asked.channel, Some(place), success)?;
                Ok(())
            }
            None => Ok(()),
        }
    }

    /// The first reply that is owed on the channel is settled.
    fn settle_first_owed(&mut self, channel: ChannelId, success: bool) -> Result<(), TableError>
        ensures world { OnOk result ((w : World) → Refines self.old w →
            Refines self.new (lined (settles_for None channel.0 success) w)) }
        ensures memory { IfErr result (λ e. e ≡ NoMemory) }
        ensures unchanged { OnErr result (IsUnchanged self.old self.new) }
        ensures session { IsSameServer self.old self.new }
    {
        let _was_owed = self.table.settle(channel, None, success)?;
        Ok(())
    }

    /// The reply that a command settles: recorded in the callback of a request on the channel, that
    /// of the request, and else the first that is owed.
    fn settle_for(
        &mut self,
        at: Option<ChannelRequest>,
        channel: ChannelId,
        success: bool,
    ) -> Result<(), TableError>
        ensures world { OnOk result ((w : World) → Refines self.old w →
            Refines self.new (lined (settles_for at channel.0 success) w)) }
        ensures memory { IfErr result (λ e. e ≡ NoMemory) }
        ensures unchanged { OnErr result (IsUnchanged self.old self.new) }
        ensures session { IsSameServer self.old self.new }
    {
        match at {
            Some(asked) => {
                if asked.channel.0 == channel.0 {
                    self.settle_one(asked, success)
                } else {
                    self.settle_first_owed(channel, success)
                }
            }
            None => self.settle_first_owed(channel, success),
        }
    }

    /// CHANNEL_SUCCESS or CHANNEL_FAILURE, as a command.
    pub(crate) fn reply_to<E, F>(
        &mut self,
        at: Option<ChannelRequest>,
        channel: ChannelId,
        success: bool,
    ) -> Result<Done, RunError<E, F>>
        ensures does { (w : World) → Refines self.old w →
            HasEffect (accepts (lined (settles_for at channel.0 success) w)) self.new result }
        ensures unchanged { OnErr result (IsUnchanged self.old self.new) }
        ensures session { IsSameServer self.old self.new }
    {
        self.settle_for(at, channel, success)?;
        Ok(Done::quiet(CommandOutcome::Accepted))
    }

    /// The reply of this request is settled, unless a command of its callback ended the connection.
    fn settle_unless_disconnected(
        &mut self,
        asked: ChannelRequest,
        granted: bool,
    ) -> Result<(), TableError>
        ensures world { OnOk result ((w : World) → Refines self.old w → Refines self.new
            (unless_ended (lined (settles_one asked.place asked.channel.0 granted)) w)) }
        ensures memory { IfErr result (λ e. e ≡ NoMemory) }
        ensures session { IsSameServer self.old self.new }
    {
        if self.common.disconnected {
            return Ok(());
        }
        self.settle_one(asked, granted)
    }

    /// A request: its channel's user and the handler are told, and the reply is theirs.
    pub(crate) fn channel_requested<O: Outside>(
        &mut self,
        outside: &mut O,
        channel: ChannelId,
        wanted: bool,
        message: ChannelMsg,
        happening: Happening,
    ) -> Result<(), RunError<O::Error, O::KexError>>
        requires suits { IsSuited O.suits self.old }
        ensures does { Acted O.Transport.heard (λ w. spoken_acts w (Requests channel wanted message happening)) self.old self.new outside.old outside.new result }
        ensures stays { Stays O.Transport.heard self.old self.new outside.old outside.new }
    {
        match self.owe_reply(channel, wanted) {
            Ok(asked) => self.tell(outside, Some(asked), channel, None, message, happening),
            Err(e) => {
                drop(message);
                drop(happening);
                Err(RunError::from(e))
            }
        }
    }

    /// A request that is not known is answered by failure.
    pub(crate) fn unknown_requested<E, F>(
        &mut self,
        channel: ChannelId,
        wanted: bool,
    ) -> Result<(), RunError<E, F>>
        ensures does { (w : World) → Refines self.old w →
            Turned (spoken_acts w (RequestsUnknown channel wanted)) w self.new result }
        ensures session { IsSameServer self.old self.new }
    {
        let asked = self.owe_reply(channel, wanted)?;
        self.settle_one(asked, false)?;
        Ok(())
    }

    /// Whether the peer's agent may be reached is the handler's to say, and the reply.
    pub(crate) fn agent_requested<O: Outside>(
        &mut self,
        outside: &mut O,
        channel: ChannelId,
        wanted: bool,
    ) -> Result<(), RunError<O::Error, O::KexError>>
        requires suits { IsSuited O.suits self.old }
        ensures does { Acted O.Transport.heard (λ w. spoken_acts w (RequestsAgent channel wanted)) self.old self.new outside.old outside.new result }
        ensures stays { Stays O.Transport.heard self.old self.new outside.old outside.new }
    {
        let asked = self.owe_reply(channel, wanted)?;
        let message = ChannelMsg::AgentForward { want_reply: wanted };
        outside.notice(Notice::Channel(channel, message))?;
        let granted = self.judge(outside, Some(asked), Judged::AgentRequest { channel })?;
        self.settle_unless_disconnected(asked, granted)?;
        Ok(())
    }
}
