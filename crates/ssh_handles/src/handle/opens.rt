// The calls of a handle that open a channel.
use super::Handle;
use crate::channel::Channel;
use ssh_hub::HandleError;
use ssh_link::Command;
use ssh_wire::{ChannelId, Text};
use std::sync::Wait;

impl Handle {
    ghost use Rattle.std.specs.Prelude.{◌≡◌};
    ghost use Rattle.ssh_handles.specs.Handles.{handle_hub, handle_view, OpensChannel, GivesChannel};
    ghost use Rattle.ssh_link.specs.declared.command.Command.TheVariants.{
      OpenAgent,
      OpenSession,
      OpenDirectTcpip,
      OpenForwardedTcpip,
      OpenDirectStreamlocal,
      OpenForwardedStreamlocal,
      OpenX11,
    };

    /// The channel with this number, which the peer has opened: none where the hub has no such
    /// channel, or it was given out before. `NoMemory` is the only error.
    pub fn channel<R: Wait>(
        &mut self,
        rt: &R,
        id: ChannelId,
    ) -> Result<Option<Channel>, HandleError>
        ensures hub { handle_hub self.new ≡ handle_hub self.old }
        ensures entries { GivesChannel (handle_hub self.old) id (handle_view self.old) result
            (handle_view self.new) }
    {
        let (reading, writing) = match self.caller.halves(rt) {
            Ok(halves) => halves,
            Err(e) => return Err(e),
        };
        let caller = &mut self.caller;
        let is_ours = caller.lock.claim(rt, &mut caller.seat, id);
        if is_ours {
            return Ok(Some(Channel::new(reading, writing, id)));
        }
        self.caller.join(reading);
        self.caller.join(writing);
        Ok(None)
    }

    // Opens a channel by this command.
    fn open<R: Wait>(&mut self, rt: &R, msg: Command) -> Result<Channel, HandleError>
        ensures hub { handle_hub self.new ≡ handle_hub self.old }
        ensures entries { OpensChannel (handle_hub self.old) (msg)
            (handle_view self.old) result (handle_view self.new) }
    {
        let (reading, writing) = match self.caller.halves(rt) {
            Ok(halves) => halves,
            Err(e) => {
                drop(msg);
                return Err(e);
            }
        };
        match self.caller.opened(rt, msg) {
            Ok(id) => Ok(Channel::new(reading, writing, id)),
            Err(e) => {
                self.caller.join(reading);
                self.caller.join(writing);
                Err(e)
            }
        }
    }

    /// Opens a channel to the agent of the client (OpenSSH's `auth-agent@openssh.com`), and waits
    /// for the peer's confirmation. `OpenFailed` where the peer refuses it, `Refused` where the
    /// session does, `Ended` where the hub has ended, and `NoMemory`; so do the calls below.
    pub fn channel_open_agent<R: Wait>(&mut self, rt: &R) -> Result<Channel, HandleError>
        ensures hub { handle_hub self.new ≡ handle_hub self.old }
        ensures entries { OpensChannel (handle_hub self.old) (OpenAgent)
            (handle_view self.old) result (handle_view self.new) }
    {
        self.open(rt, Command::OpenAgent)
    }

    /// Opens a session (RFC 4254 section 6.1).
    pub fn channel_open_session<R: Wait>(&mut self, rt: &R) -> Result<Channel, HandleError>
        ensures hub { handle_hub self.new ≡ handle_hub self.old }
        ensures entries { OpensChannel (handle_hub self.old) (OpenSession)
            (handle_view self.old) result (handle_view self.new) }
    {
        self.open(rt, Command::OpenSession)
    }

    /// Opens a connection to this host (RFC 4254 section 7.2, direct-tcpip).
    pub fn channel_open_direct_tcpip<R: Wait>(
        &mut self,
        rt: &R,
        host_to_connect: Text,
        port_to_connect: u32,
        originator_address: Text,
        originator_port: u32,
    ) -> Result<Channel, HandleError>
        ensures hub { handle_hub self.new ≡ handle_hub self.old }
        ensures entries { OpensChannel (handle_hub self.old)
            (OpenDirectTcpip host_to_connect port_to_connect
            originator_address originator_port)
            (handle_view self.old) result (handle_view self.new) }
    {
        let msg = Command::OpenDirectTcpip {
            host: host_to_connect,
            port: port_to_connect,
            originator: originator_address,
            originator_port,
        };
        self.open(rt, msg)
    }

    /// Hands on a connection that came to a forwarded port (RFC 4254 section 7.2, forwarded-tcpip).
    pub fn channel_open_forwarded_tcpip<R: Wait>(
        &mut self,
        rt: &R,
        connected_address: Text,
        connected_port: u32,
        originator_address: Text,
        originator_port: u32,
    ) -> Result<Channel, HandleError>
        ensures hub { handle_hub self.new ≡ handle_hub self.old }
        ensures entries { OpensChannel (handle_hub self.old)
            (OpenForwardedTcpip connected_address connected_port
            originator_address originator_port)
            (handle_view self.old) result (handle_view self.new) }
    {
        let msg = Command::OpenForwardedTcpip {
            host: connected_address,
            port: connected_port,
            originator: originator_address,
            originator_port,
        };
        self.open(rt, msg)
    }

    /// Opens a connection to the socket of this path at the peer (OpenSSH PROTOCOL section 2.4,
    /// direct-streamlocal).
    pub fn channel_open_direct_streamlocal<R: Wait>(
        &mut self,
        rt: &R,
        socket_path: Text,
    ) -> Result<Channel, HandleError>
        ensures hub { handle_hub self.new ≡ handle_hub self.old }
        ensures entries { OpensChannel (handle_hub self.old)
            (OpenDirectStreamlocal socket_path)
            (handle_view self.old) result (handle_view self.new) }
    {
        self.open(rt, Command::OpenDirectStreamlocal { path: socket_path })
    }

    /// Hands on a connection that came to the forwarded socket of this path (OpenSSH PROTOCOL
    /// section 2.4, forwarded-streamlocal).
    pub fn channel_open_forwarded_streamlocal<R: Wait>(
        &mut self,
        rt: &R,
        server_socket_path: Text,
    ) -> Result<Channel, HandleError>
        ensures hub { handle_hub self.new ≡ handle_hub self.old }
        ensures entries { OpensChannel (handle_hub self.old)
            (OpenForwardedStreamlocal server_socket_path)
            (handle_view self.old) result (handle_view self.new) }
    {
        let msg = Command::OpenForwardedStreamlocal {
            path: server_socket_path,
        };
        self.open(rt, msg)
    }

    /// Opens a connection to the peer's X server (RFC 4254 section 6.3.2).
    pub fn channel_open_x11<R: Wait>(
        &mut self,
        rt: &R,
        originator_address: Text,
        originator_port: u32,
    ) -> Result<Channel, HandleError>
        ensures hub { handle_hub self.new ≡ handle_hub self.old }
        ensures entries { OpensChannel (handle_hub self.old)
            (OpenX11 originator_address originator_port)
            (handle_view self.old) result (handle_view self.new) }
    {
        let msg = Command::OpenX11 {
            originator: originator_address,
            originator_port,
        };
        self.open(rt, msg)
    }
}
