// A handler that writes what it has to.
use crate::failing::Failed;
use ssh_auth::{AuthHandler, Unwritten};
use ssh_handler::{Commands, Handler};
use ssh_link::ChannelOpenHandle;
use ssh_wire::ChannelId;

/// It accepts each channel, and writes no callback that has a body of its own.
#[derive(Drop)]
pub(crate) struct Accepting;

fn accept(reply: ChannelOpenHandle, session: &mut Commands<'_>) -> Result<(), Failed> {
    session
        .answer_open(reply.accept())
        .or(Err(Failed("answer_open", 0)))
}

impl AuthHandler for Accepting {
    type Error = Failed;

    fn untold(&mut self, _by: Unwritten) -> Result<(), Failed> {
        Ok(())
    }
}

impl Handler for Accepting {
    fn channel_open_session(
        &mut self,
        _channel: ChannelId,
        reply: ChannelOpenHandle,
        session: &mut Commands<'_>,
    ) -> Result<(), Failed> {
        accept(reply, session)
    }

    fn channel_open_x11(
        &mut self,
        _channel: ChannelId,
        _originator_address: &str,
        _originator_port: u32,
        reply: ChannelOpenHandle,
        session: &mut Commands<'_>,
    ) -> Result<(), Failed> {
        accept(reply, session)
    }

    fn channel_open_direct_tcpip(
        &mut self,
        _channel: ChannelId,
        _host_to_connect: &str,
        _port_to_connect: u32,
        _originator_address: &str,
        _originator_port: u32,
        reply: ChannelOpenHandle,
        session: &mut Commands<'_>,
    ) -> Result<(), Failed> {
        accept(reply, session)
    }

    fn channel_open_forwarded_tcpip(
        &mut self,
        _channel: ChannelId,
        _host_to_connect: &str,
        _port_to_connect: u32,
        _originator_address: &str,
        _originator_port: u32,
        reply: ChannelOpenHandle,
        session: &mut Commands<'_>,
    ) -> Result<(), Failed> {
        accept(reply, session)
    }

    fn channel_open_direct_streamlocal(
        &mut self,
        _channel: ChannelId,
        _socket_path: &str,
        reply: ChannelOpenHandle,
        session: &mut Commands<'_>,
    ) -> Result<(), Failed> {
        accept(reply, session)
    }
}
