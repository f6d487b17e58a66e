// What this side asks of its session.
ghost use Rattle.std.specs.Prelude.{◌≡◌, ◌==◌, [], ◌∷◌, ◌++◌, length, IfOk, IfErr, OnOk, OnErr};
ghost use Rattle.std.specs.Prelude.{MatchOption};
ghost use Rattle.std.specs.Option.{option_copied};
ghost use Rattle.std.specs.List.{slice_get};
ghost use Rattle.ssh_wire.specs.declared.error.WireError.TheVariants.{NoMemory};

use crate::{ChannelMsg, OpenAnswer};
use bytes::Bytes;
use ssh_wire::{ChannelId, Disconnect, Sig, Text, WireError};
use std::alloc::Global;
use std::marker::Model;
use std::mem;

/// What the server asks of its session, from a callback or from outside. Channels go by this
/// side's numbers.
#[derive(Debug, Drop, PartialEq, Eq)]
pub enum Command {
    /// Sends these bytes on the channel (RFC 4254 section 5.2).
    Data {
        /// The channel.
        channel: ChannelId,
        /// The bytes, in order.
        bytes: Bytes,
    },
    /// Sends these bytes on the channel as data of another type (RFC 4254 section 5.2).
    ExtendedData {
        /// The channel.
        channel: ChannelId,
        /// The data type code; 1 is standard error.
        ext: u32,
        /// The bytes, in order.
        bytes: Bytes,
    },
    /// Tells the peer that no more data follow on the channel (RFC 4254 section 5.3).
    Eof {
        /// The channel.
        channel: ChannelId,
    },
    /// Closes the channel (RFC 4254 section 5.3).
    Close {
        /// The channel.
        channel: ChannelId,
    },
    /// Answers a request of the peer on the channel by success (RFC 4254 section 5.4). Recorded in
    /// the callback of a request on that channel, it answers that one, where a reply is wanted and
    /// has not been given. From anywhere else it answers the request whose reply the channel owes
    /// next. Where no such reply is owed it does nothing, and is accepted.
    ChannelSuccess {
        /// The channel.
        channel: ChannelId,
    },
    /// Answers a request of the peer on the channel by failure, the one that `ChannelSuccess` would
    /// answer (RFC 4254 section 5.4).
    ChannelFailure {
        /// The channel.
        channel: ChannelId,
    },
    /// Tells the client whether it may do the flow control itself (RFC 4254 section 6.8).
    XonXoff {
        /// The channel.
        channel: ChannelId,
        /// Whether it may.
        client_can_do: bool,
    },
    /// Tells how the program on the channel ended (RFC 4254 section 6.10).
    ExitStatus {
        /// The channel.
        channel: ChannelId,
        /// The program's exit status.
        exit_status: u32,
    },
    /// Tells which signal ended the program on the channel (RFC 4254 section 6.10).
    ExitSignal {
        /// The channel.
        channel: ChannelId,
        /// The signal.
        signal: Sig,
        /// Whether its memory was written out.
        core_dumped: bool,
        /// What happened, for people.
        error_message: Text,
        /// The language tag of that text.
        language: Text,
    },
    /// For a client: opens a session (RFC 4254 section 6.1).
    OpenSession,
    /// Opens a channel to the agent of the client (OpenSSH's `auth-agent@openssh.com`).
    OpenAgent,
    /// For a client: opens a connection to this host (RFC 4254 section 7.2, direct-tcpip).
    OpenDirectTcpip {
        /// The host to connect to.
        host: Text,
        /// Its port.
        port: u32,
        /// Where the connection comes from.
        originator: Text,
        /// The port there.
        originator_port: u32,
    },
    /// Hands on a connection that came to a forwarded port (RFC 4254 section 7.2,
    /// forwarded-tcpip).
    OpenForwardedTcpip {
        /// The address that was connected to.
        host: Text,
        /// Its port.
        port: u32,
        /// Where the connection comes from.
        originator: Text,
        /// The port there.
        originator_port: u32,
    },
    /// For a client: opens a connection to the socket of this path at the peer (OpenSSH PROTOCOL
    /// section 2.4, direct-streamlocal).
    OpenDirectStreamlocal {
        /// The path.
        path: Text,
    },
    /// Hands on a connection that came to the forwarded socket of this path (OpenSSH PROTOCOL
    /// section 2.4, forwarded-streamlocal).
    OpenForwardedStreamlocal {
        /// The path.
        path: Text,
    },
    /// Opens a connection to the peer's X server (RFC 4254 section 6.3.2).
    OpenX11 {
        /// Where the connection comes from.
        originator: Text,
        /// The port there.
        originator_port: u32,
    },
    /// For a client: asks the peer to forward connections to this address (RFC 4254 section 7.1).
    TcpipForward {
        /// The address that the peer is to listen at.
        address: Text,
        /// The port; 0 leaves it to the peer.
        port: u32,
        /// The slot under which the reply is told; none asks for no reply.
        reply: Option<u64>,
    },
    /// For a client: asks the peer to forward them no longer (RFC 4254 section 7.1).
    CancelTcpipForward {
        /// The address.
        address: Text,
        /// The port.
        port: u32,
        /// The slot under which the reply is told; none asks for no reply.
        reply: Option<u64>,
    },
    /// Asks the peer for a sign of life, whose reply is told to nobody (RFC 4254 section 4,
    /// `keepalive@openssh.com`).
    Keepalive,
    /// Asks the peer for a sign of life (RFC 4254 section 4, `keepalive@openssh.com`).
    Ping {
        /// The slot under which the reply is told.
        slot: u64,
    },
    /// Answers the peer's last global request by success, where that wants an answer and has none
    /// yet (RFC 4254 section 4).
    RequestSuccess,
    /// Answers the peer's last global request by failure, where that wants an answer and has none
    /// yet (RFC 4254 section 4).
    RequestFailure,
    /// Tells the peer something for people to read (RFC 4253 section 11.3).
    Debug {
        /// Whether it is to be shown in any case.
        always_display: bool,
        /// The text.
        message: Text,
        /// Its language tag.
        language: Text,
    },
    /// Ends the connection (RFC 4253 section 11.1).
    Disconnect {
        /// Why.
        reason: Disconnect,
        /// The same in words.
        description: Text,
        /// Their language tag.
        language: Text,
    },
    /// Answers an open of the peer (RFC 4254 section 5.1).
    Answer(OpenAnswer),
    /// For a client: a message that only it sends. A server's session refuses it.
    ClientOnly {
        /// The channel.
        channel: ChannelId,
        /// The message.
        msg: ChannelMsg,
    },
}

impl Command {
    /// An equal command. `NoMemory` is the only error.
    pub fn copy(&self) -> Result<Command, WireError>
        ensures ok { IfOk result (λ command. command ≡ self.now) }
        ensures memory { IfErr result (λ e. e ≡ NoMemory) }
    {
        match self {
            Command::Data { channel, bytes } => Ok(Command::Data {
                channel: *channel,
                bytes: bytes.clone()?,
            }),
            Command::ExtendedData {
                channel,
                ext,
                bytes,
            } => Ok(Command::ExtendedData {
                channel: *channel,
                ext: *ext,
                bytes: bytes.clone()?,
            }),
            Command::Eof { channel } => Ok(Command::Eof { channel: *channel }),
            Command::Close { channel } => Ok(Command::Close { channel: *channel }),
            Command::ChannelSuccess { channel } => Ok(Command::ChannelSuccess {
                channel: *channel,
            }),
            Command::ChannelFailure { channel } => Ok(Command::ChannelFailure {
                channel: *channel,
            }),
            Command::XonXoff {
                channel,
                client_can_do,
            } => Ok(Command::XonXoff {
                channel: *channel,
                client_can_do: *client_can_do,
            }),
            Command::ExitStatus {
                channel,
                exit_status,
            } => Ok(Command::ExitStatus {
                channel: *channel,
                exit_status: *exit_status,
            }),
            Command::ExitSignal {
                channel,
                signal,
                core_dumped,
                error_message,
                language,
            } => Ok(Command::ExitSignal {
                channel: *channel,
                signal: signal.copy()?,
                core_dumped: *core_dumped,
                error_message: error_message.copy()?,
                language: language.copy()?,
            }),
            Command::OpenSession => Ok(Command::OpenSession),
            Command::OpenAgent => Ok(Command::OpenAgent),
            Command::OpenDirectTcpip {
                host,
                port,
                originator,
                originator_port,
            } => Ok(Command::OpenDirectTcpip {
                host: host.copy()?,
                port: *port,
                originator: originator.copy()?,
                originator_port: *originator_port,
            }),
            Command::OpenForwardedTcpip {
                host,
                port,
                originator,
                originator_port,
            } => Ok(Command::OpenForwardedTcpip {
                host: host.copy()?,
                port: *port,
                originator: originator.copy()?,
                originator_port: *originator_port,
            }),
            Command::OpenDirectStreamlocal { path } => Ok(Command::OpenDirectStreamlocal {
                path: path.copy()?,
            }),
            Command::OpenForwardedStreamlocal { path } => Ok(Command::OpenForwardedStreamlocal {
                path: path.copy()?,
            }),
            Command::OpenX11 {
                originator,
                originator_port,
            } => Ok(Command::OpenX11 {
                originator: originator.copy()?,
                originator_port: *originator_port,
            }),
            Command::TcpipForward {
                address,
                port,
                reply,
            } => Ok(Command::TcpipForward {
                address: address.copy()?,
                port: *port,
                reply: *reply,
            }),
            Command::CancelTcpipForward {
                address,
                port,
                reply,
            } => Ok(Command::CancelTcpipForward {
                address: address.copy()?,
                port: *port,
                reply: *reply,
            }),
            Command::Keepalive => Ok(Command::Keepalive),
            Command::Ping { slot } => Ok(Command::Ping { slot: *slot }),
            Command::RequestSuccess => Ok(Command::RequestSuccess),
            Command::RequestFailure => Ok(Command::RequestFailure),
            Command::Debug {
                always_display,
                message,
                language,
            } => Ok(Command::Debug {
                always_display: *always_display,
                message: message.copy()?,
                language: language.copy()?,
            }),
            Command::Disconnect {
                reason,
                description,
                language,
            } => Ok(Command::Disconnect {
                reason: *reason,
                description: description.copy()?,
                language: language.copy()?,
            }),
            Command::Answer(answer) => Ok(Command::Answer(answer.copy()?)),
            Command::ClientOnly { channel, msg } => Ok(Command::ClientOnly {
                channel: *channel,
                msg: msg.copy()?,
            }),
        }
    }
}

/// What a message means as a command on its channel: one that a server may send, or one that only
/// a client sends.
impl From<(ChannelId, ChannelMsg)> for Command {
    ghost use Rattle.ssh_link.specs.ChannelCommands.{channel_command};

    ghost from_gives = { λ said command. command ≡ channel_command said.0 said.1 };

    fn from((channel, msg): (ChannelId, ChannelMsg)) -> Command {
        match msg {
            ChannelMsg::Data { bytes } => Command::Data { channel, bytes },
            ChannelMsg::ExtendedData { bytes, ext } => Command::ExtendedData {
                channel,
                ext,
                bytes,
            },
            ChannelMsg::Eof => Command::Eof { channel },
            ChannelMsg::Close => Command::Close { channel },
            ChannelMsg::Success => Command::ChannelSuccess { channel },
            ChannelMsg::Failure => Command::ChannelFailure { channel },
            ChannelMsg::XonXoff { client_can_do } => Command::XonXoff {
                channel,
                client_can_do,
            },
            ChannelMsg::ExitStatus { exit_status } => Command::ExitStatus {
                channel,
                exit_status,
            },
            ChannelMsg::ExitSignal {
                signal_name,
                core_dumped,
                error_message,
                lang_tag,
            } => Command::ExitSignal {
                channel,
                signal: signal_name,
                core_dumped,
                error_message,
                language: lang_tag,
            },
            msg => Command::ClientOnly { channel, msg },
        }
    }
}

/// Commands, in the order in which they were given. A clause sees the list. The memory of commands
/// that were taken serves again once the list is empty.
#[derive(Debug, Drop)]
pub struct CommandList {
    // The commands, behind a keepalive in the place of each that was taken.
    items: Vec<Command>,
    // How many were taken since the list was empty.
    taken: usize,
}

impl Model for CommandList {
    ghost use Rattle.std.specs.Prelude.{List, ◌≤◌, drop, length};
    ghost use Rattle.ssh_link.specs.declared.command.Command.{Command};

    ghost Value = { List Command };

    ghost view = { λ commands. drop commands.taken commands.items.items };

    ghost invariant = { λ commands. commands.taken ≤ length commands.items.items };
}

impl CommandList {
    /// No command.
    pub fn new(alloc: Global) -> CommandList
        ensures { result ≡ [] }
    {
        CommandList {
            items: Vec::new(alloc),
            taken: 0,
        }
    }

    /// The commands, in order.
    pub fn as_slice(&self) -> &[Command]
        ensures { result.now ≡ self.now }
    {
        &self.items.as_slice()[self.taken..]
    }

    /// The command at this place, the first being at 0; none where the list is shorter.
    pub fn get(&self, place: usize) -> Option<&Command>
        ensures { option_copied result ≡ slice_get self.now place }
    {
        self.as_slice().get(place)
    }

    /// Adds a command at the end. `NoMemory` is the only error, and leaves the list as it was.
    pub fn push(&mut self, command: Command) -> Result<(), WireError>
        ensures ok { OnOk result (self.new ≡ self.old ++ command ∷ []) }
        ensures err { OnErr result (self.new ≡ self.old) }
        ensures memory { IfErr result (λ e. e ≡ NoMemory) }
    {
        self.items.push(command)?;
        Ok(())
    }

    /// Adds a command at the end. Where there is no memory the command comes back, and the list is
    /// as it was.
    pub fn try_push(&mut self, command: Command) -> Result<(), Command>
        ensures ok { OnOk result (self.new ≡ self.old ++ command ∷ []) }
        ensures err { OnErr result (self.new ≡ self.old) }
        ensures back { IfErr result (λ e. e ≡ command) }
    {
        match self.items.push(command) {
            Ok(()) => Ok(()),
            Err(failed) => Err(failed.value),
        }
    }

    /// How many commands there are.
    pub fn len(&self) -> usize
        ensures { result ≡ length self.now }
    {
        self.items.len() - self.taken
    }

    /// Whether there is no command.
    pub fn is_empty(&self) -> bool
        ensures { result ≡ (length self.now == 0) }
    {
        self.as_slice().is_empty()
    }

    /// Takes the first command out of the list; none where the list is empty.
    pub fn take_first(&mut self) -> Option<Command>
        ensures { MatchOption result ((self.old ≡ []) × (self.new ≡ []))
            (λ command. self.old ≡ command ∷ self.new) }
    {
        let place = self.taken;
        if place == self.items.len() {
            return None;
        }
        let first = mem::replace(&mut self.items[place], Command::Keepalive);
        self.taken = place + 1;
        if self.taken == self.items.len() {
            self.items.clear();
            self.taken = 0;
        }
        Some(first)
    }

    /// An equal list. `NoMemory` is the only error.
    pub fn copy(&self) -> Result<CommandList, WireError>
        ensures ok { IfOk result (λ commands. commands ≡ self.now) }
        ensures memory { IfErr result (λ e. e ≡ NoMemory) }
    {
        let mut copies = CommandList::new(*self.items.allocator());
        for command in self.as_slice() {
            copies.push(command.copy()?)?;
        }
        Ok(copies)
    }
}
