// A file server on a channel.
ghost use Rattle.std.specs.Prelude.{◌≡◌, ◌↔◌, true, false, OnOk, IfErr, IsErrOf};
ghost use mathlib.Core.List.{IsPrefix};
ghost use Rattle.ssh_handles.specs.Handles.{reader_hub, reader_id, reader_view};
ghost use Rattle.ssh_handles.specs.Handles.{writer_hub, writer_id, writer_view};
ghost use Rattle.ssh_sftp.specs.declared.error.SftpError.TheVariants.{Failed};
ghost use Rattle.ssh_sftp.specs.Packets.{IsPartial};
ghost use Rattle.ssh_sftp.specs.Replies.{stream_of, answers_of, after_all, IsWhole};
ghost use Rattle.ssh_sftp.specs.Serving.{IsSameChannel, Hears, Says, IsAtEnd, IsStoppedBy};
ghost use Rattle.ssh_sftp.specs.Serving.{reader_calls, writer_calls, received, put};
ghost use Rattle.ssh_sftp.specs.Serving.{heard_in, HearsNext, Sends, Answers, IsServed};

use crate::{SftpError, SftpServer};
use bytes::Bytes;
use ssh_handles::{Channel, ChannelReadHalf, ChannelWriteHalf};
use ssh_link::ChannelMsg;
use std::alloc::Global;
use std::sync::Wait;

// What a message is to a file server.
#[derive(Debug, Drop)]
pub(crate) enum Heard {
    // The next data of its client.
    Data(Bytes),
    // No data come any more.
    End,
    // It is passed over.
    Nothing,
}

// What a message is to a file server; no message comes any more where there is none.
fn hear(msg: Option<ChannelMsg>) -> Heard
    ensures { result ≡ heard_in msg }
{
    match msg {
        Some(ChannelMsg::Data { bytes }) => Heard::Data(bytes),
        Some(ChannelMsg::Eof) => Heard::End,
        Some(ChannelMsg::Close) => Heard::End,
        None => Heard::End,
        other => {
            drop(other);
            Heard::Nothing
        }
    }
}

// Waits for the next data of the channel, and passes over all else; none at their end.
fn next_data<R: Wait>(rt: &R, half: &mut ChannelReadHalf) -> Option<Bytes>
    ensures hub { reader_hub half.new ≡ reader_hub half.old }
    ensures id { reader_id half.new ≡ reader_id half.old }
    ensures entries { HearsNext (reader_id half.old) (reader_view half.old) result
        (reader_view half.new) }
{
    for _ in rt.forever() {
        match hear(half.wait(rt)) {
            Heard::Data(bytes) => return Some(bytes),
            Heard::End => return None,
            Heard::Nothing => {}
        }
    }
    unreachable!()
}

// Sends these bytes on the channel.
fn send<R: Wait>(rt: &R, half: &mut ChannelWriteHalf, out: Vec<u8>) -> Result<(), SftpError>
    ensures hub { writer_hub half.new ≡ writer_hub half.old }
    ensures id { writer_id half.new ≡ writer_id half.old }
    ensures entries { Sends (writer_id half.old) out.items (writer_view half.old) result
        (writer_view half.new) }
{
    let Ok(bytes) = Bytes::from_vec(out) else {
        return Err(SftpError::NoMemory);
    };
    match half.data_bytes(rt, bytes) {
        Ok(()) => Ok(()),
        Err(e) => Err(SftpError::Handle(e)),
    }
}

// Takes the next piece of what the client sends, and sends the answers to it.
fn answer<R: Wait>(
    rt: &R,
    alloc: Global,
    half: &mut ChannelWriteHalf,
    server: &mut SftpServer,
    piece: &[u8],
) -> Result<(), SftpError>
    requires { server.old.failed ≡ false }
    ensures hub { writer_hub half.new ≡ writer_hub half.old }
    ensures id { writer_id half.new ≡ writer_id half.old }
    ensures entries { Answers server.old piece.now (writer_id half.old) (writer_view half.old)
        result server.new (writer_view half.new) }
{
    let mut out = Vec::new(alloc);
    let fed = server.feed(piece, &mut out);
    let sent = send(rt, half, out);
    fed.and(sent)
}

// Serves the channel until the data of the client end.
fn serve_to_end<R: Wait>(
    rt: &R,
    alloc: Global,
    channel: &mut Channel,
    server: &mut SftpServer,
) -> Result<(), SftpError>
    requires fine { server.old.failed ≡ false }
    requires partial { IsPartial server.old.rest }
    ensures same { IsSameChannel channel.old channel.new }
    ensures served { IsServed server.old channel.old result server.new channel.new }
{
    for _ in rt.forever() {
        match next_data(rt, &mut channel.read) {
            Some(piece) => answer(rt, alloc, &mut channel.write, server, piece.as_slice())?,
            None => return server.end(),
        }
    }
    unreachable!()
}

/// Serves files on a channel (draft-ietf-secsh-filexfer-02 section 3): takes the data of its client,
/// passes over all other messages, and sends the answers, until the client sends no more, the
/// channel is closed or the hub has ended. It waits for messages, and for the window of the channel.
/// Of a piece that is refused the answers to the packets before the fault are sent, as far as the
/// channel takes them, before `BadLength` or `NoId` is answered. `Cut` where the data end inside a
/// packet, `Handle` where a call on the channel came to an error, and `Failed`, before anything is
/// asked, where a piece was refused before.
pub fn serve_sftp<R: Wait>(
    rt: &R,
    alloc: Global,
    channel: &mut Channel,
    server: &mut SftpServer,
) -> Result<(), SftpError>
    ensures same { IsSameChannel channel.old channel.new }
    ensures heard { Hears (reader_id channel.old.read) (reader_view channel.old.read)
        (reader_calls channel.old channel.new) (reader_view channel.new.read) }
    ensures said { Says (writer_id channel.old.write) (writer_view channel.old.write)
        (writer_calls channel.old channel.new) (writer_view channel.new.write) }
    ensures answered { OnOk result (put channel.old channel.new
        ≡ answers_of server.old (received channel.old channel.new)) }
    ensures front { IsPrefix (put channel.old channel.new)
        (answers_of server.old (received channel.old channel.new)) }
    ensures whole { OnOk result (IsWhole (stream_of server.old (received channel.old channel.new))) }
    ensures ended { OnOk result (IsAtEnd (reader_calls channel.old channel.new)) }
    ensures after { OnOk result (server.new
        ≡ after_all server.old (received channel.old channel.new)) }
    ensures cause { IfErr result (λ why. IsStoppedBy why server.old channel.old channel.new) }
    ensures spent { IsErrOf result Failed ↔ (server.old.failed ≡ true) }
    ensures untouched { server.old.failed ≡ true → (channel.new ≡ channel.old)
        × (server.new ≡ server.old) }
{
    if server.failed() {
        return Err(SftpError::Failed);
    }
    serve_to_end(rt, alloc, channel, server)
}
