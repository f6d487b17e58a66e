// Commands of no channel between two inputs, each as a call (RFC 4253 section 11, RFC 4254 section
// 4).
ghost use Rattle.std.specs.Prelude.{◌≡◌, false};
ghost use Rattle.ssh_link.specs.declared.command.Command.TheVariants as command;
ghost use Rattle.ssh_session.specs.Between.{Applies};
ghost use Rattle.ssh_session.specs.Serve.{is_spent};

use crate::Session;
use ssh_link::{Command, CommandOutcome};
use ssh_wire::{Disconnect, Text, WireError};

/// Messages of no channel as commands between two inputs: each is `apply` of its command.
/// `NoMemory` is the only error, and leaves the session as it was. The session must not be spent.
impl Session {
    /// Asks the peer to forward connections to this address and port; port 0 leaves it to the peer.
    /// With a slot the peer is to answer, and its answer is told under the slot (RFC 4254 section
    /// 7.1).
    pub fn tcpip_forward(
        &mut self,
        address: Text,
        port: u32,
        reply: Option<u64>,
    ) -> Result<CommandOutcome, WireError>
        requires live { is_spent self.old ≡ false }
        ensures applied { Applies (command.TcpipForward address port reply)
            self.old self.new result }
    {
        self.apply(Command::TcpipForward {
            address,
            port,
            reply,
        })
    }

    /// Asks the peer to forward them no longer. With a slot the peer is to answer, and its answer
    /// is told under the slot (RFC 4254 section 7.1).
    pub fn cancel_tcpip_forward(
        &mut self,
        address: Text,
        port: u32,
        reply: Option<u64>,
    ) -> Result<CommandOutcome, WireError>
        requires live { is_spent self.old ≡ false }
        ensures applied { Applies (command.CancelTcpipForward address port reply)
            self.old self.new result }
    {
        self.apply(Command::CancelTcpipForward {
            address,
            port,
            reply,
        })
    }

    /// Asks the peer for a sign of life, whose answer is told to nobody (RFC 4254 section 4,
    /// `keepalive@openssh.com`).
    pub fn keepalive_request(&mut self) -> Result<CommandOutcome, WireError>
        requires live { is_spent self.old ≡ false }
        ensures applied { Applies command.Keepalive self.old self.new result }
    {
        self.apply(Command::Keepalive)
    }

    /// Asks the peer for a sign of life, whose answer is told under the slot (RFC 4254 section 4,
    /// `keepalive@openssh.com`).
    pub fn send_ping(&mut self, slot: u64) -> Result<CommandOutcome, WireError>
        requires live { is_spent self.old ≡ false }
        ensures applied { Applies (command.Ping slot) self.old self.new result }
    {
        self.apply(Command::Ping { slot })
    }

    /// Answers the peer's last global request by success, where that wants an answer and has none
    /// yet (RFC 4254 section 4).
    pub fn request_success(&mut self) -> Result<CommandOutcome, WireError>
        requires live { is_spent self.old ≡ false }
        ensures applied { Applies command.RequestSuccess self.old self.new result }
    {
        self.apply(Command::RequestSuccess)
    }

    /// Answers the peer's last global request by failure, where that wants an answer and has none
    /// yet (RFC 4254 section 4).
    pub fn request_failure(&mut self) -> Result<CommandOutcome, WireError>
        requires live { is_spent self.old ≡ false }
        ensures applied { Applies command.RequestFailure self.old self.new result }
    {
        self.apply(Command::RequestFailure)
    }

    /// Tells the peer something for people to read, with the language tag of that text, and whether
    /// it is to be shown in any case (RFC 4253 section 11.3).
    pub fn debug(
        &mut self,
        always_display: bool,
        message: Text,
        language: Text,
    ) -> Result<CommandOutcome, WireError>
        requires live { is_spent self.old ≡ false }
        ensures applied { Applies (command.Debug always_display message language)
            self.old self.new result }
    {
        self.apply(Command::Debug {
            always_display,
            message,
            language,
        })
    }

    /// Ends the connection for this reason, with the same in words and their language tag (RFC 4253
    /// section 11.1).
    pub fn disconnect(
        &mut self,
        reason: Disconnect,
        description: Text,
        language: Text,
    ) -> Result<CommandOutcome, WireError>
        requires live { is_spent self.old ≡ false }
        ensures applied { Applies (command.Disconnect reason description language)
            self.old self.new result }
    {
        self.apply(Command::Disconnect {
            reason,
            description,
            language,
        })
    }
}
