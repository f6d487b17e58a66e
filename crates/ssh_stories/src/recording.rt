// Commands that a callback records, by plain values.
use crate::answering::Tired;
use crate::wishes::{Wish, signal, texts};
use bytes::Bytes;
use ssh_handler::Commands;
use ssh_wire::{ChannelId, Text};
use std::alloc::Global;

/// A copy, as a callback makes it.
pub(crate) fn copied(alloc: Global, bytes: &[u8]) -> Result<Bytes, Tired> {
    Bytes::copy_from_slice(alloc, bytes).or(Err(Tired))
}

fn copied_text(alloc: Global, text: &str) -> Result<Text, Tired> {
    Text::new(alloc, text).or(Err(Tired))
}

fn copied_texts(alloc: Global, one: &str, other: &str) -> Result<(Text, Text), Tired> {
    texts(alloc, one, other).or(Err(Tired))
}

/// A callback records the command, which is that of no message.
pub fn record(alloc: Global, wish: Wish, session: &mut Commands<'_>) -> Result<(), Tired> {
    let recorded = match wish {
        Wish::Eof(channel) => session.eof(ChannelId(channel)),
        Wish::Close(channel) => session.close(ChannelId(channel)),
        Wish::ChannelSuccess(channel) => session.channel_success(ChannelId(channel)),
        Wish::ChannelFailure(channel) => session.channel_failure(ChannelId(channel)),
        Wish::FlowControl(channel, can_do) => session.xon_xoff_request(ChannelId(channel), can_do),
        Wish::Status(channel, status) => session.exit_status_request(ChannelId(channel), status),
        Wish::OpenSession => session.channel_open_session(),
        Wish::OpenAgent => session.channel_open_agent(),
        Wish::Keepalive => session.keepalive_request(),
        Wish::Ping(slot) => session.send_ping(slot),
        Wish::Success => session.request_success(),
        Wish::Failure => session.request_failure(),
        other => return record_owning(alloc, other, session),
    };
    recorded.or(Err(Tired))
}

// One with bytes or a text.
fn record_owning(alloc: Global, wish: Wish, session: &mut Commands<'_>) -> Result<(), Tired> {
    let recorded = match wish {
        Wish::Data(channel, bytes) => session.data(ChannelId(channel), copied(alloc, bytes)?),
        Wish::ExtendedData(channel, ext, bytes) => {
            session.extended_data(ChannelId(channel), ext, copied(alloc, bytes)?)
        }
        Wish::OpenDirectStreamlocal(path) => {
            session.channel_open_direct_streamlocal(copied_text(alloc, path)?)
        }
        Wish::OpenForwardedStreamlocal(path) => {
            session.channel_open_forwarded_streamlocal(copied_text(alloc, path)?)
        }
        Wish::OpenX11(from, port) => session.channel_open_x11(copied_text(alloc, from)?, port),
        Wish::Forward(address, port, slot) => {
            session.tcpip_forward(copied_text(alloc, address)?, port, slot)
        }
        Wish::Cancel(address, port, slot) => {
            session.cancel_tcpip_forward(copied_text(alloc, address)?, port, slot)
        }
        other => return record_texts(alloc, other, session),
    };
    recorded.or(Err(Tired))
}

// One with two texts.
fn record_texts(alloc: Global, wish: Wish, session: &mut Commands<'_>) -> Result<(), Tired> {
    let recorded = match wish {
        Wish::Signalled(channel, is_killed, message, language) => {
            let (message, language) = copied_texts(alloc, message, language)?;
            let signal = signal(is_killed);
            session.exit_signal_request(ChannelId(channel), signal, is_killed, message, language)
        }
        Wish::OpenDirectTcpip(host, port, from, from_port) => {
            let (host, from) = copied_texts(alloc, host, from)?;
            session.channel_open_direct_tcpip(host, port, from, from_port)
        }
        Wish::OpenForwardedTcpip(host, port, from, from_port) => {
            let (host, from) = copied_texts(alloc, host, from)?;
            session.channel_open_forwarded_tcpip(host, port, from, from_port)
        }
        Wish::Debug(always, message, language) => {
            let (message, language) = copied_texts(alloc, message, language)?;
            session.debug(always, message, language)
        }
        Wish::Disconnect(reason, description, language) => {
            let (description, language) = copied_texts(alloc, description, language)?;
            session.disconnect(reason, description, language)
        }
        _ => return Err(Tired),
    };
    recorded.or(Err(Tired))
}
