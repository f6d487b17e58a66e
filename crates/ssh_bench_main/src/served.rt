// Workloads on a session: inputs one after another by `Session::step`, over a link in memory.
use crate::{GRANTS, KIB_64, PACKET, SMALL, TARGET, WAITING, turn};
use bytes::Bytes;
use ssh_auth::{Auth, AuthHandler, Unwritten};
use ssh_handler::{Commands, Config, Handler};
use ssh_keys::TableVerifier;
use ssh_link::{
    Calls, ChannelOpenHandle, Command, Input, InputKind, Inputs, MemoryLink, PlainKex, TraceEntry,
};
use ssh_session::{Flow, Session};
use ssh_wire::message::{CHANNEL_DATA, CHANNEL_OPEN, CHANNEL_WINDOW_ADJUST, KEXINIT, NEWKEYS};
use ssh_wire::{ChannelId, WireError, put_bytes, put_text, put_u8, put_u32};
use std::alloc::Global;

/// SERVICE_REQUEST for the service ssh-userauth, and USERAUTH_REQUEST of alice by method none.
const LOGIN: [&[u8]; 2] = [
    b"\x05\0\0\0\x0cssh-userauth",
    b"\x32\0\0\0\x05alice\0\0\0\x0essh-connection\0\0\0\x04none",
];

/// How many bytes one grant adds.
const GRANT: u32 = 1024;

/// What the inputs are.
#[derive(Clone, Copy, PartialEq, Eq)]
pub(crate) enum Serving {
    /// 64 bytes of the peer's: a notice and a callback.
    In,
    /// A command that sends 64 KiB: its frames are handed on.
    Out,
    /// A command that sends 64 bytes: its frame is handed on.
    OutSmall,
    /// A grant of 1 KiB lets out as much of what waits: notices, a callback, a frame.
    Grant,
    /// The peer begins an exchange of keys and ends it, and on no channel anything waits: two
    /// inputs.
    Exchange,
}

pub(crate) fn serving_named(word: &str) -> Option<Serving> {
    match word {
        "in" => Some(Serving::In),
        "out" => Some(Serving::Out),
        "out-small" => Some(Serving::OutSmall),
        "grant" => Some(Serving::Grant),
        "exchange" => Some(Serving::Exchange),
        _ => None,
    }
}

/// Why a handler that accepts everything fails: it has no memory to record its answer.
#[derive(Clone, Copy, Debug, Drop)]
struct Unrecorded;

/// A handler that accepts everything and does nothing.
#[derive(Drop)]
struct Accepting;

impl AuthHandler for Accepting {
    type Error = Unrecorded;

    fn untold(&mut self, _by: Unwritten) -> Result<(), Unrecorded> {
        Ok(())
    }

    fn auth_none(&mut self, _user: &str) -> Result<Auth, Unrecorded> {
        Ok(Auth::Accept)
    }
}

impl Handler for Accepting {
    fn channel_open_session(
        &mut self,
        _channel: ChannelId,
        reply: ChannelOpenHandle,
        session: &mut Commands<'_>,
    ) -> Result<(), Unrecorded> {
        session.answer_open(reply.accept()).or(Err(Unrecorded))
    }

    fn channel_open_x11(
        &mut self,
        _channel: ChannelId,
        _originator_address: &str,
        _originator_port: u32,
        reply: ChannelOpenHandle,
        _session: &mut Commands<'_>,
    ) -> Result<(), Unrecorded> {
        let _number = reply.into_channel();
        Ok(())
    }

    fn channel_open_direct_tcpip(
        &mut self,
        _channel: ChannelId,
        _host_to_connect: &str,
        _port_to_connect: u32,
        _originator_address: &str,
        _originator_port: u32,
        reply: ChannelOpenHandle,
        _session: &mut Commands<'_>,
    ) -> Result<(), Unrecorded> {
        let _number = reply.into_channel();
        Ok(())
    }

    fn channel_open_forwarded_tcpip(
        &mut self,
        _channel: ChannelId,
        _host_to_connect: &str,
        _port_to_connect: u32,
        _originator_address: &str,
        _originator_port: u32,
        reply: ChannelOpenHandle,
        _session: &mut Commands<'_>,
    ) -> Result<(), Unrecorded> {
        let _number = reply.into_channel();
        Ok(())
    }

    fn channel_open_direct_streamlocal(
        &mut self,
        _channel: ChannelId,
        _socket_path: &str,
        reply: ChannelOpenHandle,
        _session: &mut Commands<'_>,
    ) -> Result<(), Unrecorded> {
        let _number = reply.into_channel();
        Ok(())
    }
}

/// A session with its outside.
#[derive(Drop)]
struct Served {
    alloc: Global,
    session: Session,
    handler: Accepting,
    verifier: TableVerifier,
    kex: PlainKex,
    link: MemoryLink,
}

impl Served {
    fn new(alloc: Global) -> Result<Served, WireError> {
        let mut config = Config::standard();
        config.window_size = TARGET;
        config.maximum_packet_size = PACKET;
        Ok(Served {
            alloc,
            session: Session::new(alloc, &config, b"", b"")?,
            handler: Accepting,
            verifier: TableVerifier::new(alloc),
            kex: PlainKex::new(alloc, false),
            link: MemoryLink::new(alloc, Inputs::new(alloc), Calls::new(alloc))?,
        })
    }

    /// Whether the session goes on after this input, and the link was told of it.
    fn takes(&mut self, kind: InputKind) -> bool {
        let before = self.link.trace().len();
        let input = Input { moment: 0, kind };
        let result = self.session.step(
            &mut self.handler,
            &self.verifier,
            &mut self.kex,
            &mut self.link,
            input,
        );
        let goes_on = matches!(&result, Ok(Flow::Continue));
        drop(result);
        goes_on && self.link.trace().len() > before
    }

    fn takes_payload(&mut self, payload: Vec<u8>) -> Result<bool, WireError> {
        Ok(self.takes(InputKind::Payload(Bytes::from_vec(payload)?)))
    }

    /// Whether a frame was the last thing that the link was told.
    fn sent(&self) -> bool {
        matches!(self.link.trace().last(), Some(TraceEntry::Sent(_)))
    }

    fn opens(&mut self, peer: u32, credit: u32) -> Result<bool, WireError> {
        let mut payload = Vec::new(self.alloc);
        put_u8(&mut payload, CHANNEL_OPEN)?;
        put_text(&mut payload, "session")?;
        put_u32(&mut payload, peer)?;
        put_u32(&mut payload, credit)?;
        put_u32(&mut payload, PACKET)?;
        self.takes_payload(payload)
    }

    fn receives(&mut self, channel: ChannelId, bytes: &[u8]) -> Result<bool, WireError> {
        let mut payload = Vec::new(self.alloc);
        put_u8(&mut payload, CHANNEL_DATA)?;
        put_u32(&mut payload, channel.0)?;
        put_bytes(&mut payload, bytes)?;
        self.takes_payload(payload)
    }

    fn is_granted(&mut self, channel: ChannelId) -> Result<bool, WireError> {
        let mut payload = Vec::new(self.alloc);
        put_u8(&mut payload, CHANNEL_WINDOW_ADJUST)?;
        put_u32(&mut payload, channel.0)?;
        put_u32(&mut payload, GRANT)?;
        Ok(self.takes_payload(payload)? && self.sent())
    }

    fn exchanges(&mut self) -> Result<bool, WireError> {
        let mut begins = Vec::new(self.alloc);
        put_u8(&mut begins, KEXINIT)?;
        let began = self.takes_payload(begins)? && self.sent();
        let mut ends = Vec::new(self.alloc);
        put_u8(&mut ends, NEWKEYS)?;
        Ok(self.takes_payload(ends)? && self.sent() && began)
    }

    fn sends(&mut self, channel: ChannelId, bytes: Bytes) -> bool {
        self.takes(InputKind::Command(0, Command::Data { channel, bytes })) && self.sent()
    }
}

/// A session with so many channels, on each of which so many bytes may be sent.
fn opened(alloc: Global, channels: u32, credit: u32) -> Result<Served, WireError> {
    let mut served = Served::new(alloc)?;
    for payload in LOGIN {
        let login = Bytes::copy_from_slice(alloc, payload)?;
        let _goes_on = served.takes(InputKind::Payload(login));
    }
    for peer in 0..channels {
        let _goes_on = served.opens(peer, credit)?;
    }
    Ok(served)
}

fn piece(alloc: Global, length: usize) -> Result<Bytes, WireError> {
    let bytes: Vec<u8> = vec![in alloc; 7; length]?;
    Ok(Bytes::from_vec(bytes)?)
}

fn receive(served: &mut Served, channels: u32, bytes: &[u8], count: u32) -> Result<u64, WireError> {
    let mut done: u64 = 0;
    for call in 0..count {
        if served.receives(turn(call, channels), bytes)? {
            done = done.saturating_add(1);
        }
    }
    Ok(done)
}

fn send(served: &mut Served, channels: u32, bytes: &Bytes, count: u32) -> Result<u64, WireError> {
    let mut done: u64 = 0;
    for call in 0..count {
        if served.sends(turn(call, channels), bytes.clone()?) {
            done = done.saturating_add(1);
        }
    }
    Ok(done)
}

/// Sends so many bytes in each command, all of which go out.
fn send_all(alloc: Global, channels: u32, length: usize, count: u32) -> Result<u64, WireError> {
    let bytes = piece(alloc, length)?;
    let mut served = opened(alloc, channels, u32::MAX)?;
    send(&mut served, channels, &bytes, count)
}

fn grant(served: &mut Served, channels: u32, count: u32) -> Result<u64, WireError> {
    let mut done: u64 = 0;
    for call in 0..count {
        if served.is_granted(turn(call, channels))? {
            done = done.saturating_add(1);
        }
    }
    Ok(done)
}

fn exchange(served: &mut Served, count: u32) -> Result<u64, WireError> {
    let mut done: u64 = 0;
    for _ in 0..count {
        if served.exchanges()? {
            done = done.saturating_add(1);
        }
    }
    Ok(done)
}

/// How many inputs were served: the link was told of each, and handed a frame where one goes out.
pub(crate) fn serve(
    alloc: Global,
    work: Serving,
    channels: u32,
    count: u32,
) -> Result<u64, WireError> {
    match work {
        Serving::In => {
            let bytes = piece(alloc, SMALL)?;
            let mut served = opened(alloc, channels, 0)?;
            receive(&mut served, channels, bytes.as_slice(), count)
        }
        Serving::Out => send_all(alloc, channels, KIB_64, count),
        Serving::OutSmall => send_all(alloc, channels, SMALL, count),
        Serving::Grant => {
            let bytes = piece(alloc, WAITING)?;
            let mut served = opened(alloc, channels, 0)?;
            let chunks = count / channels.max(1).saturating_mul(GRANTS) + 1;
            send(
                &mut served,
                channels,
                &bytes,
                channels.saturating_mul(chunks),
            )?;
            grant(&mut served, channels, count)
        }
        Serving::Exchange => {
            let mut served = opened(alloc, channels, 0)?;
            exchange(&mut served, count)
        }
    }
}
