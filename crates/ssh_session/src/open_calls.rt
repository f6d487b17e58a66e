// Opens between two inputs, each as a call (RFC 4254 section 5.1).
ghost use Rattle.std.specs.Prelude.{◌≡◌, false};
ghost use Rattle.ssh_link.specs.declared.command.Command.TheVariants as command;
ghost use Rattle.ssh_session.specs.Between.{Applies};
ghost use Rattle.ssh_session.specs.Serve.{is_spent};

use crate::Session;
use ssh_link::{Command, CommandOutcome, OpenAnswer};
use ssh_wire::{Text, WireError};

/// Opens of this side, and answers to those of the peer, as commands between two inputs: each is
/// `apply` of its command. Channels go by this side's numbers, and that of an open comes as
/// `CommandOutcome::Opened`. `NoMemory` is the only error, and leaves the session as it was. The
/// session must not be spent.
impl Session {
    /// Opens a session (RFC 4254 section 6.1).
    pub fn channel_open_session(&mut self) -> Result<CommandOutcome, WireError>
        requires live { is_spent self.old ≡ false }
        ensures applied { Applies command.OpenSession self.old self.new result }
    {
        self.apply(Command::OpenSession)
    }

    /// Opens a channel to the agent of the client (OpenSSH's `auth-agent@openssh.com`).
    pub fn channel_open_agent(&mut self) -> Result<CommandOutcome, WireError>
        requires live { is_spent self.old ≡ false }
        ensures applied { Applies command.OpenAgent self.old self.new result }
    {
        self.apply(Command::OpenAgent)
    }

    /// Opens a connection to this host and port, which comes from the originator (RFC 4254 section
    /// 7.2, direct-tcpip).
    pub fn channel_open_direct_tcpip(
        &mut self,
        host: Text,
        port: u32,
        originator: Text,
        originator_port: u32,
    ) -> Result<CommandOutcome, WireError>
        requires live { is_spent self.old ≡ false }
        ensures applied { Applies (command.OpenDirectTcpip host port originator originator_port)
            self.old self.new result }
    {
        self.apply(Command::OpenDirectTcpip {
            host,
            port,
            originator,
            originator_port,
        })
    }

    /// Hands on a connection that came to this address and port, from the originator (RFC 4254
    /// section 7.2, forwarded-tcpip).
    pub fn channel_open_forwarded_tcpip(
        &mut self,
        host: Text,
        port: u32,
        originator: Text,
        originator_port: u32,
    ) -> Result<CommandOutcome, WireError>
        requires live { is_spent self.old ≡ false }
        ensures applied { Applies (command.OpenForwardedTcpip host port originator originator_port)
            self.old self.new result }
    {
        self.apply(Command::OpenForwardedTcpip {
            host,
            port,
            originator,
            originator_port,
        })
    }

    /// Opens a connection to the socket of this path at the peer (OpenSSH PROTOCOL section 2.4).
    pub fn channel_open_direct_streamlocal(
        &mut self,
        path: Text,
    ) -> Result<CommandOutcome, WireError>
        requires live { is_spent self.old ≡ false }
        ensures applied { Applies (command.OpenDirectStreamlocal path) self.old self.new result }
    {
        self.apply(Command::OpenDirectStreamlocal { path })
    }

    /// Hands on a connection that came to the forwarded socket of this path (OpenSSH PROTOCOL
    /// section 2.4).
    pub fn channel_open_forwarded_streamlocal(
        &mut self,
        path: Text,
    ) -> Result<CommandOutcome, WireError>
        requires live { is_spent self.old ≡ false }
        ensures applied { Applies (command.OpenForwardedStreamlocal path) self.old self.new result }
    {
        self.apply(Command::OpenForwardedStreamlocal { path })
    }

    /// Opens a connection to the peer's X server, which comes from the originator (RFC 4254 section
    /// 6.3.2).
    pub fn channel_open_x11(
        &mut self,
        originator: Text,
        originator_port: u32,
    ) -> Result<CommandOutcome, WireError>
        requires live { is_spent self.old ≡ false }
        ensures applied { Applies (command.OpenX11 originator originator_port)
            self.old self.new result }
    {
        self.apply(Command::OpenX11 {
            originator,
            originator_port,
        })
    }

    /// Answers a channel that the peer opens (RFC 4254 section 5.1).
    pub fn answer_open(&mut self, answer: OpenAnswer) -> Result<CommandOutcome, WireError>
        requires live { is_spent self.old ≡ false }
        ensures applied { Applies (command.Answer answer) self.old self.new result }
    {
        self.apply(Command::Answer(answer))
    }
}
