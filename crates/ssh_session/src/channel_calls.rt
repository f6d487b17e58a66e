// Commands on a channel between two inputs, each as a call (RFC 4254).
ghost use Rattle.std.specs.Prelude.{◌≡◌, false};
ghost use Rattle.ssh_link.specs.declared.command.Command.TheVariants as command;
ghost use Rattle.ssh_session.specs.Between.{Applies, AppliesData, is_accepted};
ghost use Rattle.ssh_session.specs.Serve.{is_spent};

use crate::Session;
use bytes::Bytes;
use ssh_link::{Command, CommandOutcome};
use ssh_wire::{ChannelId, Sig, Text, WireError};

/// Whether a command was done.
fn is_accepted(outcome: &CommandOutcome) -> bool
    ensures { result ≡ is_accepted outcome.now }
{
    matches!(outcome, CommandOutcome::Accepted)
}

/// Messages on a channel as commands between two inputs: each is `apply` of its command. Channels
/// go by this side's numbers. `NoMemory` is the only error, and leaves the session as it was. The
/// session must not be spent.
impl Session {
    /// Sends these bytes on the channel (RFC 4254 section 5.2). Answers whether it was accepted;
    /// `apply` says why it was not.
    pub fn data(&mut self, channel: ChannelId, bytes: Bytes) -> Result<bool, WireError>
        requires live { is_spent self.old ≡ false }
        ensures applied { AppliesData (command.Data channel bytes) self.old self.new result }
    {
        Ok(is_accepted(&self.apply(Command::Data { channel, bytes })?))
    }

    /// Sends these bytes on the channel as data of another type; `ext` 1 is standard error (RFC
    /// 4254 section 5.2). Answers whether it was accepted; `apply` says why it was not.
    pub fn extended_data(
        &mut self,
        channel: ChannelId,
        ext: u32,
        bytes: Bytes,
    ) -> Result<bool, WireError>
        requires live { is_spent self.old ≡ false }
        ensures applied { AppliesData (command.ExtendedData channel ext bytes)
            self.old self.new result }
    {
        Ok(is_accepted(&self.apply(Command::ExtendedData {
            channel,
            ext,
            bytes,
        })?))
    }

    /// Tells the peer that no more data follow on the channel (RFC 4254 section 5.3).
    pub fn eof(&mut self, channel: ChannelId) -> Result<CommandOutcome, WireError>
        requires live { is_spent self.old ≡ false }
        ensures applied { Applies (command.Eof channel) self.old self.new result }
    {
        self.apply(Command::Eof { channel })
    }

    /// Closes the channel (RFC 4254 section 5.3).
    pub fn close(&mut self, channel: ChannelId) -> Result<CommandOutcome, WireError>
        requires live { is_spent self.old ≡ false }
        ensures applied { Applies (command.Close channel) self.old self.new result }
    {
        self.apply(Command::Close { channel })
    }

    /// Answers the oldest request of the peer on the channel that has no answer yet, by success (RFC
    /// 4254 section 5.4). Where none waits for one, nothing goes out.
    pub fn channel_success(&mut self, channel: ChannelId) -> Result<CommandOutcome, WireError>
        requires live { is_spent self.old ≡ false }
        ensures applied { Applies (command.ChannelSuccess channel) self.old self.new result }
    {
        self.apply(Command::ChannelSuccess { channel })
    }

    /// Answers the oldest request of the peer on the channel that has no answer yet, by failure (RFC
    /// 4254 section 5.4). Where none waits for one, nothing goes out.
    pub fn channel_failure(&mut self, channel: ChannelId) -> Result<CommandOutcome, WireError>
        requires live { is_spent self.old ≡ false }
        ensures applied { Applies (command.ChannelFailure channel) self.old self.new result }
    {
        self.apply(Command::ChannelFailure { channel })
    }

    /// Tells the client whether it may do the flow control itself (RFC 4254 section 6.8).
    pub fn xon_xoff_request(
        &mut self,
        channel: ChannelId,
        client_can_do: bool,
    ) -> Result<CommandOutcome, WireError>
        requires live { is_spent self.old ≡ false }
        ensures applied { Applies (command.XonXoff channel client_can_do) self.old self.new result }
    {
        self.apply(Command::XonXoff {
            channel,
            client_can_do,
        })
    }

    /// Tells how the program on the channel ended (RFC 4254 section 6.10).
    pub fn exit_status_request(
        &mut self,
        channel: ChannelId,
        exit_status: u32,
    ) -> Result<CommandOutcome, WireError>
        requires live { is_spent self.old ≡ false }
        ensures applied { Applies (command.ExitStatus channel exit_status)
            self.old self.new result }
    {
        self.apply(Command::ExitStatus {
            channel,
            exit_status,
        })
    }

    /// Tells which signal ended the program on the channel, whether its memory was written out, and
    /// what happened, for people, with the language tag of that text (RFC 4254 section 6.10).
    pub fn exit_signal_request(
        &mut self,
        channel: ChannelId,
        signal: Sig,
        core_dumped: bool,
        error_message: Text,
        language: Text,
    ) -> Result<CommandOutcome, WireError>
        requires live { is_spent self.old ≡ false }
        ensures applied { Applies
            (command.ExitSignal channel signal core_dumped error_message language)
            self.old self.new result }
    {
        self.apply(Command::ExitSignal {
            channel,
            signal,
            core_dumped,
            error_message,
            language,
        })
    }
}
