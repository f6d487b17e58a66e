// The handler of the tests: it answers by a plan, and keeps what it is told, asked and lent.
ghost use Rattle.std.specs.Prelude.{◌≤◌, length};

use crate::recording::{copied, record};
use crate::wishes::Wish;
use bytes::Bytes;
use ssh_auth::{Auth, AuthHandler, Unwritten};
use ssh_handler::{Commands, Handler};
use ssh_link::{ChannelOpenHandle, CommandOutcome};
use ssh_wire::ChannelId;
use std::alloc::Global;

/// Why a handler of the tests fails.
#[derive(Clone, Copy, Drop)]
pub struct Tired;

/// What a handler was told, the channel first. Of data their number of bytes and the first of them.
#[derive(Clone, Copy, PartialEq, Eq)]
pub enum Told {
    Open(u32),
    Data(u32, usize, Option<u8>),
    /// With the data type code before the bytes.
    Extended(u32, u32, usize, Option<u8>),
    /// How many bytes may still be sent.
    Granted(u32, u32),
    /// Up to how many bytes the room was filled.
    Filled(u32, u32),
    Eof(u32),
    Close(u32),
    /// The place of the command.
    Refused(usize),
    /// What the session that it is lent says of the channel.
    Reads(u32, Lent),
}

/// What a session that is lent to a callback says of a channel, and of what it takes from outside.
#[derive(Clone, Copy, PartialEq, Eq)]
pub struct Lent {
    pub window: u32,
    pub packet: u32,
    pub writable: u32,
    pub data_wait: bool,
    pub can_send: bool,
    pub commands: bool,
    pub replies: bool,
}

fn read_lent(channel: ChannelId, session: &Commands<'_>) -> Lent {
    Lent {
        window: session.window_size(&channel),
        packet: session.max_packet_size(&channel),
        writable: session.writable_packet_size(&channel),
        data_wait: session.has_pending_data(channel),
        can_send: session.can_send(channel),
        commands: session.commands_wanted(),
        replies: session.replies_wanted(),
    }
}

/// What a handler does of its own.
#[derive(Clone, Copy)]
pub struct Plan {
    /// Whether it fails where a callback is called that it does not write.
    pub fails: bool,
    /// Whether it grants what it is asked.
    pub grants: bool,
    /// The port that it binds; none leaves the one that was asked for.
    pub port: Option<u32>,
    /// What it records behind its answer to an open, in order.
    pub opening: &'static [Wish],
    /// What it records where it is asked for a forward, the agent or a program, or is told of
    /// data, in order.
    pub records: &'static [Wish],
    /// Whether it sends data back as they came, extended data too.
    pub echoes: bool,
    /// Up to how many bytes it fills windows from now on; none leaves that as it is.
    pub aims: Option<u32>,
    /// Whether it reads what it is lent in each callback of a channel.
    pub reads: bool,
}

/// Of a handler that grants nothing and records nothing.
pub const QUIET: Plan = Plan {
    fails: false,
    grants: false,
    port: None,
    opening: &[],
    records: &[],
    echoes: false,
    aims: None,
    reads: false,
};

/// Such a handler. It lets everybody in who has a password, and keeps the name of the peer's
/// software; of authentication it writes no other callback. It accepts sessions, and leaves opens
/// of paths to others.
#[derive(Drop)]
pub struct Answering {
    alloc: Global,
    plan: Plan,
    /// How many of its callbacks were called, those too that it does not write.
    pub calls: usize,
    /// The name of the peer's software that it was lent when its user was let in.
    pub software: Bytes,
    /// What it was told of channels, in order.
    pub told: Vec<Told>,
    /// What it was asked, and that data came: a line for each, of the callback, a space and its
    /// text, and for a port another space and the four bytes of the port.
    pub asked: Vec<u8>,
    /// The places of its commands that were refused or opened a channel, and what came of them.
    pub done: Vec<(usize, CommandOutcome)>,
}

impl Answering {
    pub fn new(alloc: Global, plan: Plan) -> Answering {
        Answering {
            alloc,
            plan,
            calls: 0,
            software: Bytes::new(),
            told: Vec::new(alloc),
            asked: Vec::new(alloc),
            done: Vec::new(alloc),
        }
    }

    fn count(&mut self) {
        self.calls = self.calls.saturating_add(1);
    }

    fn keep(&mut self, told: Told) -> Result<(), Tired> {
        self.told.push(told).or(Err(Tired))
    }

    // The callback, and what it is lent, where it reads that.
    fn hears(
        &mut self,
        told: Told,
        channel: ChannelId,
        session: &Commands<'_>,
    ) -> Result<(), Tired> {
        self.keep(told)?;
        if self.plan.reads {
            self.keep(Told::Reads(channel.0, read_lent(channel, session)))?;
        }
        Ok(())
    }

    // A line, of these pieces.
    fn write(&mut self, pieces: &[&[u8]]) -> Result<(), Tired> {
        for piece in pieces {
            self.asked.extend_from_slice(*piece).or(Err(Tired))?;
        }
        self.asked.push(b'\n').or(Err(Tired))
    }

    // It is asked about this text.
    fn decide(
        &mut self,
        callback: &[u8],
        text: &str,
        session: &mut Commands<'_>,
    ) -> Result<bool, Tired> {
        self.count();
        self.write(&[callback, text.as_bytes()])?;
        record_each(self.alloc, self.plan.records, session)?;
        Ok(self.plan.grants)
    }

    // It is asked about this address and this port.
    fn decide_port(
        &mut self,
        callback: &[u8],
        text: &str,
        port: u32,
        session: &mut Commands<'_>,
    ) -> Result<bool, Tired> {
        self.count();
        self.write(&[callback, text.as_bytes(), b" ", &port.to_be_bytes()])?;
        record_each(self.alloc, self.plan.records, session)?;
        Ok(self.plan.grants)
    }

    // An open of a kind that it knows nothing of.
    fn fail_open(&mut self, reply: ChannelOpenHandle) -> Result<(), Tired> {
        self.count();
        let _number = reply.into_channel();
        Err(Tired)
    }
}

fn record_each(
    alloc: Global,
    wishes: &'static [Wish],
    session: &mut Commands<'_>,
) -> Result<(), Tired> {
    for wish in wishes {
        record(alloc, *wish, session)?;
    }
    Ok(())
}

impl AuthHandler for Answering {
    type Error = Tired;

    fn untold(&mut self, _by: Unwritten) -> Result<(), Tired> {
        self.count();
        if self.plan.fails {
            return Err(Tired);
        }
        Ok(())
    }

    fn auth_password(&mut self, _user: &str, _password: &str) -> Result<Auth, Tired> {
        self.count();
        Ok(Auth::Accept)
    }
}

impl Handler for Answering {
    // The name stands behind `SSH-2.0-`.
    ghost suits = { λ _ remote_sshid. 8 ≤ length remote_sshid };

    fn auth_succeeded(&mut self, session: &mut Commands<'_>) -> Result<(), Tired> {
        self.count();
        let (_, software) = session.remote_sshid().split_at(8);
        self.software = copied(self.alloc, software)?;
        Ok(())
    }

    fn channel_close(
        &mut self,
        channel: ChannelId,
        session: &mut Commands<'_>,
    ) -> Result<(), Tired> {
        self.count();
        self.hears(Told::Close(channel.0), channel, session)
    }

    fn channel_eof(&mut self, channel: ChannelId, session: &mut Commands<'_>) -> Result<(), Tired> {
        self.count();
        self.hears(Told::Eof(channel.0), channel, session)
    }

    fn channel_open_session(
        &mut self,
        channel: ChannelId,
        reply: ChannelOpenHandle,
        session: &mut Commands<'_>,
    ) -> Result<(), Tired> {
        self.count();
        session.answer_open(reply.accept()).or(Err(Tired))?;
        self.hears(Told::Open(channel.0), channel, session)?;
        record_each(self.alloc, self.plan.opening, session)
    }

    fn channel_open_x11(
        &mut self,
        _channel: ChannelId,
        _originator_address: &str,
        _originator_port: u32,
        reply: ChannelOpenHandle,
        _session: &mut Commands<'_>,
    ) -> Result<(), Tired> {
        self.fail_open(reply)
    }

    fn channel_open_direct_tcpip(
        &mut self,
        _channel: ChannelId,
        _host_to_connect: &str,
        _port_to_connect: u32,
        _originator_address: &str,
        _originator_port: u32,
        reply: ChannelOpenHandle,
        _session: &mut Commands<'_>,
    ) -> Result<(), Tired> {
        self.fail_open(reply)
    }

    fn channel_open_forwarded_tcpip(
        &mut self,
        _channel: ChannelId,
        _host_to_connect: &str,
        _port_to_connect: u32,
        _originator_address: &str,
        _originator_port: u32,
        reply: ChannelOpenHandle,
        _session: &mut Commands<'_>,
    ) -> Result<(), Tired> {
        self.fail_open(reply)
    }

    fn channel_open_direct_streamlocal(
        &mut self,
        _channel: ChannelId,
        _socket_path: &str,
        reply: ChannelOpenHandle,
        _session: &mut Commands<'_>,
    ) -> Result<(), Tired> {
        self.count();
        let _number = reply.into_channel();
        Ok(())
    }

    fn data(
        &mut self,
        channel: ChannelId,
        bytes: &[u8],
        session: &mut Commands<'_>,
    ) -> Result<(), Tired> {
        self.count();
        let told = Told::Data(channel.0, bytes.len(), bytes.first().copied());
        self.hears(told, channel, session)?;
        self.write(&[b"data"])?;
        record_each(self.alloc, self.plan.records, session)?;
        if self.plan.echoes {
            let copy = copied(self.alloc, bytes)?;
            session.data(channel, copy).or(Err(Tired))?;
        }
        Ok(())
    }

    fn extended_data(
        &mut self,
        channel: ChannelId,
        code: u32,
        bytes: &[u8],
        session: &mut Commands<'_>,
    ) -> Result<(), Tired> {
        self.count();
        self.keep(Told::Extended(channel.0, code, bytes.len(), bytes.first().copied()))?;
        if self.plan.echoes {
            let copy = copied(self.alloc, bytes)?;
            session.extended_data(channel, code, copy).or(Err(Tired))?;
        }
        Ok(())
    }

    fn window_adjusted(
        &mut self,
        channel: ChannelId,
        new_size: u32,
        session: &mut Commands<'_>,
    ) -> Result<(), Tired> {
        self.count();
        self.hears(Told::Granted(channel.0, new_size), channel, session)
    }

    fn adjust_window(&mut self, channel: ChannelId, current: u32) -> Result<u32, Tired> {
        self.count();
        self.keep(Told::Filled(channel.0, current))?;
        Ok(self.plan.aims.unwrap_or(current))
    }

    fn exec_request(
        &mut self,
        _channel: ChannelId,
        _bytes: &[u8],
        session: &mut Commands<'_>,
    ) -> Result<(), Tired> {
        self.count();
        record_each(self.alloc, self.plan.records, session)
    }

    fn agent_request(
        &mut self,
        _channel: ChannelId,
        session: &mut Commands<'_>,
    ) -> Result<bool, Tired> {
        self.decide(b"agent_request", "", session)
    }

    fn tcpip_forward(
        &mut self,
        address: &str,
        port: &mut u32,
        session: &mut Commands<'_>,
    ) -> Result<bool, Tired> {
        let asked = *port;
        *port = self.plan.port.unwrap_or(asked);
        self.decide_port(b"tcpip_forward ", address, asked, session)
    }

    fn cancel_tcpip_forward(
        &mut self,
        address: &str,
        port: u32,
        session: &mut Commands<'_>,
    ) -> Result<bool, Tired> {
        self.decide_port(b"cancel_tcpip_forward ", address, port, session)
    }

    fn streamlocal_forward(
        &mut self,
        socket_path: &str,
        session: &mut Commands<'_>,
    ) -> Result<bool, Tired> {
        self.decide(b"streamlocal_forward ", socket_path, session)
    }

    fn cancel_streamlocal_forward(
        &mut self,
        socket_path: &str,
        session: &mut Commands<'_>,
    ) -> Result<bool, Tired> {
        self.decide(b"cancel_streamlocal_forward ", socket_path, session)
    }

    fn command_done(&mut self, place: usize, outcome: CommandOutcome) -> Result<(), Tired> {
        self.count();
        if matches!(outcome, CommandOutcome::Refused(_)) {
            self.keep(Told::Refused(place))?;
        }
        self.done.push((place, outcome)).or(Err(Tired))
    }
}
