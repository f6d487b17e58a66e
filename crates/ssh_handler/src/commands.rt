// What a callback may ask of its session.
ghost use Rattle.std.specs.Prelude.{◌≡◌, [], None, IfOk, IfErr};
ghost use Rattle.std.specs.Option.{option_copied};
ghost use Rattle.ssh_wire.specs.declared.error.WireError.TheVariants.{NoMemory};
ghost use Rattle.ssh_link.specs.declared.command.Command.TheVariants as command;
ghost use Rattle.ssh_handler.specs.Loan.{TakesDown};

mod channels;

use crate::Config;
use bytes::Bytes;
use ssh_channels::Encrypted;
use ssh_link::{Command, CommandList, OpenAnswer};
use ssh_wire::{ChannelId, Disconnect, Sig, Text, WireError};
use std::alloc::Global;
use std::marker::Model;

/// What a session lends to a callback for the time of its call: it reads the session as it is at
/// the call, and records commands, which the session does in their order once the callback has
/// returned. Each of its calls that records a command answers that command where there is no memory
/// for it, and has then recorded nothing. Channels go by this side's numbers, sizes are in bytes.
#[derive(Drop)]
pub struct Commands<'a> {
    recorded: CommandList,
    table: &'a Encrypted,
    config: &'a Config,
    remote_sshid: &'a [u8],
    commands_wanted: bool,
    replies_wanted: bool,
    user: Option<&'a str>,
}

impl<'a> Model for Commands<'a> {
    ghost use Rattle.std.specs.Option.{option_copied};
    ghost use Rattle.ssh_handler.specs.Loan.{Loan};

    ghost Value = { Loan };

    ghost view = { λ c. record {
      recorded = c.recorded;
      table = c.table.now;
      config = c.config.now;
      remote_sshid = c.remote_sshid.now;
      commands_wanted = c.commands_wanted;
      replies_wanted = c.replies_wanted;
      user = option_copied c.user;
    } };
}

impl<'a> Commands<'a> {
    /// For a session: lends these channels, this configuration, the line by which the peer's
    /// software named itself, and whether the session takes commands and answers to opens from
    /// outside now. It names no user. No command is recorded yet.
    pub fn new(
        alloc: Global,
        table: &'a Encrypted,
        config: &'a Config,
        remote_sshid: &'a [u8],
        commands_wanted: bool,
        replies_wanted: bool,
    ) -> Commands<'a>
        ensures recorded { result.recorded ≡ [] }
        ensures table { result.table ≡ table.now }
        ensures config { result.config ≡ config.now }
        ensures remote_sshid { result.remote_sshid ≡ remote_sshid.now }
        ensures commands_wanted { result.commands_wanted ≡ commands_wanted }
        ensures replies_wanted { result.replies_wanted ≡ replies_wanted }
        ensures user { result.user ≡ None }
    {
        Commands::for_user(
            alloc,
            table,
            config,
            remote_sshid,
            commands_wanted,
            replies_wanted,
            None,
        )
    }

    /// For a session: lends the same, and the name of the user, where one was let in.
    pub fn for_user(
        alloc: Global,
        table: &'a Encrypted,
        config: &'a Config,
        remote_sshid: &'a [u8],
        commands_wanted: bool,
        replies_wanted: bool,
        user: Option<&'a str>,
    ) -> Commands<'a>
        ensures recorded { result.recorded ≡ [] }
        ensures table { result.table ≡ table.now }
        ensures config { result.config ≡ config.now }
        ensures remote_sshid { result.remote_sshid ≡ remote_sshid.now }
        ensures commands_wanted { result.commands_wanted ≡ commands_wanted }
        ensures replies_wanted { result.replies_wanted ≡ replies_wanted }
        ensures user { result.user ≡ option_copied user.entry }
    {
        Commands {
            recorded: CommandList::new(alloc),
            table,
            config,
            remote_sshid,
            commands_wanted,
            replies_wanted,
            user,
        }
    }

    /// How the server is set up.
    pub fn config(&self) -> &Config
        ensures { result.now ≡ self.now.config }
    {
        self.config
    }

    /// The line by which the peer's software named itself, as "SSH-2.0-OpenSSH_9.6", without
    /// its line end (RFC 4253 section 4.2).
    pub fn remote_sshid(&self) -> &[u8]
        ensures { result.now ≡ self.now.remote_sshid }
    {
        self.remote_sshid
    }

    /// Whether the session takes commands from outside now: no exchange of keys runs, and no data
    /// wait on any channel.
    pub fn commands_wanted(&self) -> bool
        ensures { result ≡ self.now.commands_wanted }
    {
        self.commands_wanted
    }

    /// Whether the session takes answers to opens from outside now: no exchange of keys runs.
    pub fn replies_wanted(&self) -> bool
        ensures { result ≡ self.now.replies_wanted }
    {
        self.replies_wanted
    }

    /// The name of the user who was let in (RFC 4252 section 5); None before a user was.
    pub fn user(&self) -> Option<&str>
        ensures { option_copied result ≡ self.now.user }
    {
        self.user
    }

    /// The recorded commands, in order.
    pub fn recorded(&self) -> &[Command]
        ensures { result.now ≡ self.now.recorded }
    {
        self.recorded.as_slice()
    }

    /// For whoever tells the callback: a copy of the recorded commands. `NoMemory` is the only
    /// error.
    pub fn copy_recorded(&self) -> Result<CommandList, WireError>
        ensures ok { IfOk result (λ commands. commands ≡ self.now.recorded) }
        ensures memory { IfErr result (λ e. e ≡ NoMemory) }
    {
        self.recorded.copy()
    }

    /// For a session: the recorded commands, in order, to keep.
    pub fn into_list(self) -> CommandList
        ensures { result ≡ self.entry.recorded }
    {
        self.recorded
    }
}

// One call a command. What comes of it is told by `command_done`, where it opens a channel or is
// refused.
impl<'a> Commands<'a> {
    /// Sends these bytes on the channel (RFC 4254 section 5.2).
    pub fn data(&mut self, channel: ChannelId, bytes: Bytes) -> Result<(), Command>
        ensures { TakesDown self.old self.new result (command.Data channel bytes) }
    {
        self.recorded.try_push(Command::Data { channel, bytes })
    }

    /// Sends these bytes on the channel as data of another type; `ext` 1 is standard error (RFC
    /// 4254 section 5.2).
    pub fn extended_data(
        &mut self,
        channel: ChannelId,
        ext: u32,
        bytes: Bytes,
    ) -> Result<(), Command>
        ensures { TakesDown self.old self.new result (command.ExtendedData channel ext bytes) }
    {
        self.recorded.try_push(Command::ExtendedData {
            channel,
            ext,
            bytes,
        })
    }

    /// Tells the peer that no more data follow on the channel (RFC 4254 section 5.3).
    pub fn eof(&mut self, channel: ChannelId) -> Result<(), Command>
        ensures { TakesDown self.old self.new result (command.Eof channel) }
    {
        self.recorded.try_push(Command::Eof { channel })
    }

    /// Closes the channel (RFC 4254 section 5.3).
    pub fn close(&mut self, channel: ChannelId) -> Result<(), Command>
        ensures { TakesDown self.old self.new result (command.Close channel) }
    {
        self.recorded.try_push(Command::Close { channel })
    }

    /// Answers a request of the peer on the channel by success (RFC 4254 section 5.4). In the
    /// callback of a request on that channel it answers that one, where a reply is wanted and has
    /// not been given. In any other it answers the request whose reply the channel owes next. Where
    /// no such reply is owed it does nothing, and is accepted.
    pub fn channel_success(&mut self, channel: ChannelId) -> Result<(), Command>
        ensures { TakesDown self.old self.new result (command.ChannelSuccess channel) }
    {
        self.recorded.try_push(Command::ChannelSuccess { channel })
    }

    /// Answers a request of the peer on the channel by failure, the one that `channel_success` would
    /// answer (RFC 4254 section 5.4).
    pub fn channel_failure(&mut self, channel: ChannelId) -> Result<(), Command>
        ensures { TakesDown self.old self.new result (command.ChannelFailure channel) }
    {
        self.recorded.try_push(Command::ChannelFailure { channel })
    }

    /// Tells the client whether it may do the flow control itself (RFC 4254 section 6.8).
    pub fn xon_xoff_request(
        &mut self,
        channel: ChannelId,
        client_can_do: bool,
    ) -> Result<(), Command>
        ensures { TakesDown self.old self.new result (command.XonXoff channel client_can_do) }
    {
        self.recorded.try_push(Command::XonXoff {
            channel,
            client_can_do,
        })
    }

    /// Tells how the program on the channel ended (RFC 4254 section 6.10).
    pub fn exit_status_request(
        &mut self,
        channel: ChannelId,
        exit_status: u32,
    ) -> Result<(), Command>
        ensures { TakesDown self.old self.new result (command.ExitStatus channel exit_status) }
    {
        self.recorded.try_push(Command::ExitStatus {
            channel,
            exit_status,
        })
    }

    /// Tells which signal ended the program on the channel, whether its memory was written out, and
    /// what happened, for people, with the language tag of that text (RFC 4254 section 6.10).
    pub fn exit_signal_request(
        &mut self,
        channel: ChannelId,
        signal: Sig,
        core_dumped: bool,
        error_message: Text,
        language: Text,
    ) -> Result<(), Command>
        ensures { TakesDown self.old self.new result (command.ExitSignal channel signal core_dumped
            error_message language) }
    {
        self.recorded.try_push(Command::ExitSignal {
            channel,
            signal,
            core_dumped,
            error_message,
            language,
        })
    }

    /// For a client: opens a session (RFC 4254 section 6.1). A peer that is one should refuse it.
    pub fn channel_open_session(&mut self) -> Result<(), Command>
        ensures { TakesDown self.old self.new result command.OpenSession }
    {
        self.recorded.try_push(Command::OpenSession)
    }

    /// Opens a channel to the agent of the client (OpenSSH's `auth-agent@openssh.com`).
    pub fn channel_open_agent(&mut self) -> Result<(), Command>
        ensures { TakesDown self.old self.new result command.OpenAgent }
    {
        self.recorded.try_push(Command::OpenAgent)
    }

    /// For a client: opens a connection to this host and port, which comes from the originator (RFC
    /// 4254 section 7.2, direct-tcpip). A peer that is one should refuse it.
    pub fn channel_open_direct_tcpip(
        &mut self,
        host: Text,
        port: u32,
        originator: Text,
        originator_port: u32,
    ) -> Result<(), Command>
        ensures { TakesDown self.old self.new result (command.OpenDirectTcpip host port originator
            originator_port) }
    {
        self.recorded.try_push(Command::OpenDirectTcpip {
            host,
            port,
            originator,
            originator_port,
        })
    }

    /// Hands on a connection that came to this address and port, from the originator (RFC 4254
    /// section 7.2, forwarded-tcpip).
    pub fn channel_open_forwarded_tcpip(
        &mut self,
        host: Text,
        port: u32,
        originator: Text,
        originator_port: u32,
    ) -> Result<(), Command>
        ensures { TakesDown self.old self.new result (command.OpenForwardedTcpip host port
            originator originator_port) }
    {
        self.recorded.try_push(Command::OpenForwardedTcpip {
            host,
            port,
            originator,
            originator_port,
        })
    }

    /// For a client: opens a connection to the socket of this path at the peer (OpenSSH PROTOCOL
    /// section 2.4).
    pub fn channel_open_direct_streamlocal(&mut self, path: Text) -> Result<(), Command>
        ensures { TakesDown self.old self.new result (command.OpenDirectStreamlocal path) }
    {
        self.recorded
            .try_push(Command::OpenDirectStreamlocal { path })
    }

    /// Hands on a connection that came to the forwarded socket of this path (OpenSSH PROTOCOL
    /// section 2.4).
    pub fn channel_open_forwarded_streamlocal(&mut self, path: Text) -> Result<(), Command>
        ensures { TakesDown self.old self.new result (command.OpenForwardedStreamlocal path) }
    {
        self.recorded
            .try_push(Command::OpenForwardedStreamlocal { path })
    }

    /// Opens a connection to the peer's X server, which comes from the originator (RFC 4254 section
    /// 6.3.2).
    pub fn channel_open_x11(
        &mut self,
        originator: Text,
        originator_port: u32,
    ) -> Result<(), Command>
        ensures { TakesDown self.old self.new result (command.OpenX11 originator originator_port) }
    {
        self.recorded.try_push(Command::OpenX11 {
            originator,
            originator_port,
        })
    }

    /// For a client: asks the peer to forward connections to this address and port; port 0 leaves it
    /// to the peer. With a slot the peer is to answer, and its answer is told under the slot (RFC
    /// 4254 section 7.1). A peer that is a client should refuse it.
    pub fn tcpip_forward(
        &mut self,
        address: Text,
        port: u32,
        reply: Option<u64>,
    ) -> Result<(), Command>
        ensures { TakesDown self.old self.new result (command.TcpipForward address port reply) }
    {
        self.recorded.try_push(Command::TcpipForward {
            address,
            port,
            reply,
        })
    }

    /// For a client: asks the peer to forward them no longer. With a slot the peer is to answer, and
    /// its answer is told under the slot (RFC 4254 section 7.1).
    pub fn cancel_tcpip_forward(
        &mut self,
        address: Text,
        port: u32,
        reply: Option<u64>,
    ) -> Result<(), Command>
        ensures { TakesDown self.old self.new result (command.CancelTcpipForward address port
            reply) }
    {
        self.recorded.try_push(Command::CancelTcpipForward {
            address,
            port,
            reply,
        })
    }

    /// Asks the peer for a sign of life, whose answer is told to nobody (RFC 4254 section 4,
    /// `keepalive@openssh.com`).
    pub fn keepalive_request(&mut self) -> Result<(), Command>
        ensures { TakesDown self.old self.new result command.Keepalive }
    {
        self.recorded.try_push(Command::Keepalive)
    }

    /// Asks the peer for a sign of life, whose answer is told under the slot (RFC 4254 section 4,
    /// `keepalive@openssh.com`).
    pub fn send_ping(&mut self, slot: u64) -> Result<(), Command>
        ensures { TakesDown self.old self.new result (command.Ping slot) }
    {
        self.recorded.try_push(Command::Ping { slot })
    }

    /// Answers the peer's last global request by success, where that wants an answer and has none
    /// yet (RFC 4254 section 4).
    pub fn request_success(&mut self) -> Result<(), Command>
        ensures { TakesDown self.old self.new result command.RequestSuccess }
    {
        self.recorded.try_push(Command::RequestSuccess)
    }

    /// Answers the peer's last global request by failure, where that wants an answer and has none
    /// yet (RFC 4254 section 4).
    pub fn request_failure(&mut self) -> Result<(), Command>
        ensures { TakesDown self.old self.new result command.RequestFailure }
    {
        self.recorded.try_push(Command::RequestFailure)
    }

    /// Tells the peer something for people to read, with the language tag of that text, and whether
    /// it is to be shown in any case (RFC 4253 section 11.3).
    pub fn debug(
        &mut self,
        always_display: bool,
        message: Text,
        language: Text,
    ) -> Result<(), Command>
        ensures { TakesDown self.old self.new result (command.Debug always_display message
            language) }
    {
        self.recorded.try_push(Command::Debug {
            always_display,
            message,
            language,
        })
    }

    /// Ends the connection for this reason, with the same in words and their language tag (RFC 4253
    /// section 11.1).
    pub fn disconnect(
        &mut self,
        reason: Disconnect,
        description: Text,
        language: Text,
    ) -> Result<(), Command>
        ensures { TakesDown self.old self.new result (command.Disconnect reason description
            language) }
    {
        self.recorded.try_push(Command::Disconnect {
            reason,
            description,
            language,
        })
    }

    /// Answers a channel that the peer opens (RFC 4254 section 5.1).
    pub fn answer_open(&mut self, answer: OpenAnswer) -> Result<(), Command>
        ensures { TakesDown self.old self.new result (command.Answer answer) }
    {
        self.recorded.try_push(Command::Answer(answer))
    }
}
