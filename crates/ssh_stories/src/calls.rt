// What is done with a session between its inputs; none where the session is spent.
ghost use Rattle.std.specs.Prelude.{◌≡◌, false};
ghost use Rattle.ssh_session.specs.Serve.{is_spent};

use crate::sides::Side;
use crate::wishes::{Wish, command, signal, texts};
use bytes::Bytes;
use ssh_link::{ChannelOpenHandle, CommandOutcome, Refusal};
use ssh_session::Session;
use ssh_wire::{ChannelId, Text, WireError};
use std::alloc::Global;

/// A command is applied.
pub(crate) fn applied(side: &mut Side, wish: Wish) -> Result<Option<CommandOutcome>, WireError> {
    if side.session.spent() {
        return Ok(None);
    }
    let command = command(side.alloc, wish)?;
    Ok(Some(side.session.apply(command)?))
}

/// The open of this number is accepted.
pub(crate) fn accepted(side: &mut Side, number: u32) -> Result<Option<CommandOutcome>, WireError> {
    if side.session.spent() {
        return Ok(None);
    }
    let answer = ChannelOpenHandle::new(ChannelId(number)).accept();
    Ok(Some(side.session.answer_open(answer)?))
}

/// What waits on a channel is written, so many bytes.
pub(crate) fn flushed(side: &mut Side, channel: u32) -> Option<usize> {
    if side.session.spent() {
        return None;
    }
    side.session.flush_pending(ChannelId(channel)).ok()
}

/// Whether what was written is handed on.
pub(crate) fn hands_on(side: &mut Side) -> bool {
    if side.session.spent() {
        return false;
    }
    side.session.flush(&mut side.kex, &mut side.link).is_ok()
}

/// A command is done by its own call; none where it has none, as that of a message.
pub(crate) fn called(side: &mut Side, wish: Wish) -> Result<Option<CommandOutcome>, WireError> {
    if side.session.spent() {
        return Ok(None);
    }
    call(side.alloc, &mut side.session, wish)
}

fn call(
    alloc: Global,
    session: &mut Session,
    wish: Wish,
) -> Result<Option<CommandOutcome>, WireError>
    requires live { is_spent session.old ≡ false }
{
    let came = match wish {
        Wish::Eof(channel) => session.eof(ChannelId(channel)),
        Wish::Close(channel) => session.close(ChannelId(channel)),
        Wish::ChannelSuccess(channel) => session.channel_success(ChannelId(channel)),
        Wish::ChannelFailure(channel) => session.channel_failure(ChannelId(channel)),
        Wish::FlowControl(channel, can_do) => session.xon_xoff_request(ChannelId(channel), can_do),
        Wish::Status(channel, status) => session.exit_status_request(ChannelId(channel), status),
        Wish::OpenSession => session.channel_open_session(),
        Wish::OpenAgent => session.channel_open_agent(),
        Wish::Keepalive => session.keepalive_request(),
        Wish::Ping(slot) => session.send_ping(slot),
        Wish::Success => session.request_success(),
        Wish::Failure => session.request_failure(),
        other => return call_owning(alloc, session, other),
    };
    Ok(Some(came?))
}

// What came of data, which are refused where there is no channel.
fn came_of_data(accepted: Result<bool, WireError>) -> Result<CommandOutcome, WireError> {
    Ok(if accepted? {
        CommandOutcome::Accepted
    } else {
        CommandOutcome::Refused(Refusal::UnknownChannel)
    })
}

// One with bytes or a text.
fn call_owning(
    alloc: Global,
    session: &mut Session,
    wish: Wish,
) -> Result<Option<CommandOutcome>, WireError>
    requires live { is_spent session.old ≡ false }
{
    let came = match wish {
        Wish::Data(channel, bytes) => {
            let bytes = Bytes::copy_from_slice(alloc, bytes)?;
            came_of_data(session.data(ChannelId(channel), bytes))
        }
        Wish::ExtendedData(channel, ext, bytes) => {
            let bytes = Bytes::copy_from_slice(alloc, bytes)?;
            came_of_data(session.extended_data(ChannelId(channel), ext, bytes))
        }
        Wish::OpenDirectStreamlocal(path) => {
            session.channel_open_direct_streamlocal(Text::new(alloc, path)?)
        }
        Wish::OpenForwardedStreamlocal(path) => {
            session.channel_open_forwarded_streamlocal(Text::new(alloc, path)?)
        }
        Wish::OpenX11(from, port) => session.channel_open_x11(Text::new(alloc, from)?, port),
        Wish::Forward(address, port, slot) => {
            session.tcpip_forward(Text::new(alloc, address)?, port, slot)
        }
        Wish::Cancel(address, port, slot) => {
            session.cancel_tcpip_forward(Text::new(alloc, address)?, port, slot)
        }
        other => return call_with_texts(alloc, session, other),
    };
    Ok(Some(came?))
}

// One with two texts.
fn call_with_texts(
    alloc: Global,
    session: &mut Session,
    wish: Wish,
) -> Result<Option<CommandOutcome>, WireError>
    requires live { is_spent session.old ≡ false }
{
    let came = match wish {
        Wish::Signalled(channel, is_killed, message, language) => {
            let (message, language) = texts(alloc, message, language)?;
            let signal = signal(is_killed);
            session.exit_signal_request(ChannelId(channel), signal, is_killed, message, language)
        }
        Wish::OpenDirectTcpip(host, port, from, from_port) => {
            let (host, from) = texts(alloc, host, from)?;
            session.channel_open_direct_tcpip(host, port, from, from_port)
        }
        Wish::OpenForwardedTcpip(host, port, from, from_port) => {
            let (host, from) = texts(alloc, host, from)?;
            session.channel_open_forwarded_tcpip(host, port, from, from_port)
        }
        Wish::Debug(always, message, language) => {
            let (message, language) = texts(alloc, message, language)?;
            session.debug(always, message, language)
        }
        Wish::Disconnect(reason, description, language) => {
            let (description, language) = texts(alloc, description, language)?;
            session.disconnect(reason, description, language)
        }
        _ => return Ok(None),
    };
    Ok(Some(came?))
}
