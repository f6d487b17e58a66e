// The packets of a stream, in whatever pieces they come.
ghost use Rattle.std.specs.Prelude.{◌≡◌, ◌≤◌, ◌<◌, ◌++◌, ℕ, List, length, OnOk, IfErr};
ghost use Rattle.ssh_sftp.specs.Packets.{IsPartial, IsAtMostWhole};
ghost use Rattle.ssh_sftp.specs.Replies.{Serves, Refuses};

use crate::SftpError;
use ssh_sftp_core::Files;
use ssh_wire::Reader;
use std::cmp::min;

// The most bytes that a packet may have.
const MOST: u32 = 262144;

// How many bytes are missing to the end of the length, or of the packet whose length is there.
fn missing(rest: &[u8]) -> usize
    requires { IsPartial rest.now }
    ensures some { 0 < result }
    ensures within { (part : List ℕ) → length part ≤ result → IsAtMostWhole (rest.now ++ part) }
{
    match Reader::new(rest).u32() {
        Ok(length) => 4 + length as usize - rest.len(),
        Err(_) => 4 - rest.len(),
    }
}

// Answers the packet where it is whole, and keeps nothing of it.
fn settle(files: &mut Files, rest: &mut Vec<u8>, out: &mut Vec<u8>) -> Result<(), SftpError>
    requires { IsAtMostWhole rest.old.items }
    ensures ok { OnOk result (Serves files.old rest.old.items files.new rest.new.items
        out.old.items out.new.items) }
    ensures partial { OnOk result (IsPartial rest.new.items) }
    ensures err { IfErr result (λ why. Refuses files.old rest.old.items why
        out.old.items out.new.items) }
{
    let mut reader = Reader::new(rest);
    let Ok(length) = reader.ahead().u32() else {
        return Ok(());
    };
    if length == 0 || length > MOST {
        return Err(SftpError::BadLength { length });
    }
    let Ok(packet) = reader.bytes() else {
        return Ok(());
    };
    if length < 5 {
        return Err(SftpError::NoId);
    }
    files.answer(packet, out)?;
    rest.clear();
    Ok(())
}

// Takes the next piece of the stream. Each byte is copied once into what is kept of a packet, and a
// packet is read once, when its last byte is there.
pub(crate) fn feed_into(
    files: &mut Files,
    rest: &mut Vec<u8>,
    piece: &[u8],
    out: &mut Vec<u8>,
) -> Result<(), SftpError>
    requires { IsPartial rest.old.items }
    ensures ok { OnOk result (Serves files.old (rest.old.items ++ piece.now) files.new
        rest.new.items out.old.items out.new.items) }
    ensures partial { OnOk result (IsPartial rest.new.items) }
    ensures err { IfErr result (λ why. Refuses files.old (rest.old.items ++ piece.now) why
        out.old.items out.new.items) }
{
    let mut left = piece;
    while !left.is_empty() {
        let (part, after) = left.split_at(min(missing(rest), left.len()));
        rest.extend_from_slice(part)?;
        left = after;
        settle(files, rest, out)?;
    }
    Ok(())
}
