// The frames by which an end opens a channel, and accepts one.
ghost use Rattle.std.specs.Prelude.{◌≡◌, IfOk, IfErr};
ghost use Rattle.ssh_ends.specs.End.{confirmation_frame_of, open_frame_of};
ghost use Rattle.ssh_ends.specs.declared.error.EndError.TheVariants.{NoMemory};

use crate::EndError;
use bytes::Bytes;
use ssh_link::Frame;
use ssh_wire::message::{CHANNEL_OPEN, CHANNEL_OPEN_CONFIRMATION};
use ssh_wire::{ChannelId, WireError, put_text, put_u8, put_u32};
use std::alloc::Global;

/// CHANNEL_OPEN of a session (RFC 4254 sections 5.1 and 6.1).
pub(crate) fn open_frame(
    alloc: Global,
    own: ChannelId,
    window: u32,
    packet: u32,
) -> Result<Frame, EndError>
    ensures ok { IfOk result (λ frame. frame ≡ open_frame_of own.0 window packet) }
    ensures memory { IfErr result (λ e. e ≡ NoMemory) }
{
    let Ok(payload) = open_payload(alloc, own, window, packet) else {
        return Err(EndError::NoMemory);
    };
    Ok(Frame::new(Bytes::from_vec(payload)?, None, Some(own)))
}

fn open_payload(
    alloc: Global,
    own: ChannelId,
    window: u32,
    packet: u32,
) -> Result<Vec<u8>, WireError>
    ensures { IfOk result (λ payload. payload.items
        ≡ (open_frame_of own.0 window packet).payload) }
{
    let mut payload = Vec::new(alloc);
    put_u8(&mut payload, CHANNEL_OPEN)?;
    put_text(&mut payload, "session")?;
    put_u32(&mut payload, own.0)?;
    put_u32(&mut payload, window)?;
    put_u32(&mut payload, packet)?;
    Ok(payload)
}

/// CHANNEL_OPEN_CONFIRMATION of the channel that the other side calls `sender` (RFC 4254 section
/// 5.1).
pub(crate) fn confirmation_frame(
    alloc: Global,
    own: ChannelId,
    sender: u32,
    window: u32,
    packet: u32,
) -> Result<Frame, EndError>
    ensures ok { IfOk result (λ frame. frame ≡ confirmation_frame_of own.0 sender window packet) }
    ensures memory { IfErr result (λ e. e ≡ NoMemory) }
{
    let Ok(payload) = confirmation_payload(alloc, own, sender, window, packet) else {
        return Err(EndError::NoMemory);
    };
    Ok(Frame::new(Bytes::from_vec(payload)?, None, Some(own)))
}

fn confirmation_payload(
    alloc: Global,
    own: ChannelId,
    sender: u32,
    window: u32,
    packet: u32,
) -> Result<Vec<u8>, WireError>
    ensures { IfOk result (λ payload. payload.items
        ≡ (confirmation_frame_of own.0 sender window packet).payload) }
{
    let mut payload = Vec::new(alloc);
    put_u8(&mut payload, CHANNEL_OPEN_CONFIRMATION)?;
    put_u32(&mut payload, sender)?;
    put_u32(&mut payload, own.0)?;
    put_u32(&mut payload, window)?;
    put_u32(&mut payload, packet)?;
    Ok(payload)
}
