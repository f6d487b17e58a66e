// What a caller is told of a notice.
use crate::entries::Entry;
use ssh_link::{ChannelMsg, Notice};
use ssh_wire::{Modes, WireError, put_bytes, put_text, put_u8, put_u32};
use std::alloc::Global;

/// The byte behind the last mode of a terminal (RFC 4254 section 8, TTY_OP_END).
const MODES_END: u8 = 0;

/// The entry of a notice, without its bytes.
pub(crate) fn notice_entry(notice: &Notice) -> Entry {
    match notice {
        Notice::Channel(channel, msg) => message_entry(channel.0, msg),
        Notice::Granted { channel, amount } => Entry::new(3, channel.0, *amount as u64, 0),
        Notice::Ready {
            channel,
            window,
            packet,
        } => Entry::new(2, channel.0, *window as u64, *packet),
        Notice::Forwarded { slot, port } => Entry::new(20, 0, *slot, port.unwrap_or(0)),
        Notice::Cancelled { slot, ok } => Entry::new(21, 0, *slot, *ok as u32),
        Notice::Pong { slot } => Entry::new(22, 0, *slot, 0),
    }
}

// The entry of what happened on a channel, without its bytes.
fn message_entry(channel: u32, msg: &ChannelMsg) -> Entry {
    match msg {
        ChannelMsg::WindowAdjusted { new_size } => Entry::new(4, channel, *new_size as u64, 0),
        ChannelMsg::Data { .. } => Entry::new(5, channel, 0, 0),
        ChannelMsg::ExtendedData { ext, .. } => Entry::new(6, channel, 0, *ext),
        ChannelMsg::Eof => Entry::new(7, channel, 0, 0),
        ChannelMsg::Close => Entry::new(8, channel, 0, 0),
        ChannelMsg::Open { .. } => Entry::new(9, channel, 0, 0),
        ChannelMsg::OpenFailure(reason) => Entry::new(10, channel, reason.code() as u64, 0),
        _ => request_entry(channel, msg),
    }
}

// The entry of a request of the peer's: `number` is whether an answer is wanted.
fn request_entry(channel: u32, msg: &ChannelMsg) -> Entry {
    match msg {
        ChannelMsg::RequestPty { want_reply, .. } => asked(11, channel, *want_reply),
        ChannelMsg::RequestShell { want_reply } => asked(12, channel, *want_reply),
        ChannelMsg::Exec { want_reply, .. } => asked(13, channel, *want_reply),
        ChannelMsg::RequestSubsystem { want_reply, .. } => asked(14, channel, *want_reply),
        ChannelMsg::SetEnv { want_reply, .. } => asked(15, channel, *want_reply),
        ChannelMsg::RequestX11 { want_reply, .. } => asked(16, channel, *want_reply),
        ChannelMsg::AgentForward { want_reply } => asked(17, channel, *want_reply),
        ChannelMsg::WindowChange { .. } => asked(18, channel, false),
        ChannelMsg::Signal { .. } => asked(19, channel, false),
        _ => asked(0, channel, false),
    }
}

// The entry of a request of this kind.
fn asked(kind: u32, channel: u32, want_reply: bool) -> Entry {
    Entry::new(kind, channel, want_reply as u64, 0)
}

/// The one piece of bytes that a notice carries; none where it carries fields, or nothing.
pub(crate) fn notice_slice(notice: &Notice) -> &[u8] {
    let Notice::Channel(_, msg) = notice else {
        return &[];
    };
    match msg {
        ChannelMsg::Data { bytes } => bytes.as_slice(),
        ChannelMsg::ExtendedData { bytes, .. } => bytes.as_slice(),
        ChannelMsg::Exec { command, .. } => command.as_slice(),
        ChannelMsg::RequestSubsystem { name, .. } => name.as_str().as_bytes(),
        ChannelMsg::Signal { signal } => signal.name().as_bytes(),
        _ => &[],
    }
}

/// The fields that a notice carries, as SSH spells them (RFC 4251 section 5); none where it carries
/// none.
pub(crate) fn notice_fields(alloc: Global, notice: &Notice) -> Result<Vec<u8>, WireError> {
    let mut fields = Vec::new(alloc);
    if let Notice::Channel(_, msg) = notice {
        put_message(&mut fields, msg)?;
    }
    Ok(fields)
}

// Puts the fields of what happened on a channel.
fn put_message(fields: &mut Vec<u8>, msg: &ChannelMsg) -> Result<(), WireError> {
    match msg {
        ChannelMsg::RequestPty {
            term,
            col_width,
            row_height,
            pix_width,
            pix_height,
            terminal_modes,
            ..
        } => {
            put_text(fields, term.as_str())?;
            put_size(fields, *col_width, *row_height, *pix_width, *pix_height)?;
            put_modes(fields, terminal_modes)
        }
        ChannelMsg::SetEnv {
            variable_name,
            variable_value,
            ..
        } => {
            put_text(fields, variable_name.as_str())?;
            put_text(fields, variable_value.as_str())
        }
        ChannelMsg::WindowChange {
            col_width,
            row_height,
            pix_width,
            pix_height,
        } => put_size(fields, *col_width, *row_height, *pix_width, *pix_height),
        ChannelMsg::RequestX11 {
            single_connection,
            x11_authentication_protocol,
            x11_authentication_cookie,
            x11_screen_number,
            ..
        } => {
            put_u8(fields, *single_connection as u8)?;
            put_text(fields, x11_authentication_protocol.as_str())?;
            put_text(fields, x11_authentication_cookie.as_str())?;
            put_u32(fields, *x11_screen_number)
        }
        _ => Ok(()),
    }
}

// Puts the size of a terminal: characters, rows, and both in pixels.
fn put_size(
    fields: &mut Vec<u8>,
    columns: u32,
    rows: u32,
    width: u32,
    height: u32,
) -> Result<(), WireError> {
    put_u32(fields, columns)?;
    put_u32(fields, rows)?;
    put_u32(fields, width)?;
    put_u32(fields, height)
}

// Puts the modes of a terminal as a string (RFC 4254 section 8).
fn put_modes(fields: &mut Vec<u8>, modes: &Modes) -> Result<(), WireError> {
    let mut spelled = Vec::new(*fields.allocator());
    for (mode, value) in modes.as_slice() {
        put_u8(&mut spelled, mode.code())?;
        put_u32(&mut spelled, *value)?;
    }
    put_u8(&mut spelled, MODES_END)?;
    put_bytes(fields, spelled.as_slice())
}
