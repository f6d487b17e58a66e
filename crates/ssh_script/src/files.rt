// A file server that a script gives the pieces of its client's stream.
ghost use Rattle.std.specs.Prelude.{◌≡◌, ◌++◌, ℕ, List, IfOk, OnOk};
ghost use Rattle.std.specs.String.{string_bytes};
ghost use Rattle.ssh_script.specs.Files.{sent_line, error_name, ending, is_starved};
ghost use Rattle.ssh_script.specs.Files.{HasTaken, Takes, AreServed};

use crate::run::{DONE, ENDED_BY_ERROR};
use bytes::Bytes;
use ssh_sftp::{SftpError, SftpServer};
use ssh_transcript::print_hex;
use std::alloc::{AllocError, Global};

/// How an error is named.
fn error_name(why: SftpError) -> &'static str
    ensures { result.now ≡ error_name why }
{
    match why {
        SftpError::NoMemory => "NoMemory",
        SftpError::BadLength { .. } => "BadLength",
        SftpError::NoId => "NoId",
        SftpError::Cut { .. } => "Cut",
        SftpError::Handle(_) => "Handle",
        SftpError::Failed => "Failed",
    }
}

/// Answers as a line; none where there are none.
fn print_sent(alloc: Global, text: &mut String, out: &[u8]) -> Result<(), AllocError>
    ensures { OnOk result (string_bytes text.new ≡ string_bytes text.old ++ sent_line out.now) }
{
    if out.is_empty() {
        return Ok(());
    }
    text.push_str("send ")?;
    print_hex(alloc, text, out)?;
    text.push_str("\n")
}

/// The last line, which says how the stream ended, and its status.
pub(crate) fn print_ending(
    text: &mut String,
    ended: Result<(), SftpError>,
) -> Result<u8, AllocError>
    ensures status { IfOk result (λ status. status ≡ (ending ended).0) }
    ensures text { OnOk result (string_bytes text.new ≡ string_bytes text.old ++ (ending ended).1) }
{
    match ended {
        Ok(()) => {
            text.push_str("ok\n")?;
            Ok(DONE)
        }
        Err(why) => {
            text.push_str("error ")?;
            text.push_str(error_name(why))?;
            text.push_str("\n")?;
            Ok(ENDED_BY_ERROR)
        }
    }
}

/// Whether memory was wanting.
fn is_starved(fed: &Result<(), SftpError>) -> bool
    ensures { result ≡ is_starved fed.now }
{
    match fed {
        Err(SftpError::NoMemory) => true,
        Ok(())
        | Err(SftpError::BadLength { .. })
        | Err(SftpError::NoId)
        | Err(SftpError::Cut { .. })
        | Err(SftpError::Handle(_))
        | Err(SftpError::Failed) => false,
    }
}

/// The server is given one piece, and what it answers is written.
fn serve_piece(
    alloc: Global,
    server: &mut SftpServer,
    piece: &[u8],
    text: &mut String,
) -> Result<Result<(), SftpError>, AllocError>
    ensures { (so_far : List ℕ) → HasTaken so_far server.old → IfOk result (λ fed.
        Takes so_far piece.now fed server.new (string_bytes text.old) (string_bytes text.new)) }
{
    let mut out = Vec::new(alloc);
    let fed = server.feed(piece, &mut out);
    if is_starved(&fed) {
        return Err(AllocError);
    }
    print_sent(alloc, text, &out)?;
    Ok(fed)
}

/// A server is given these pieces, and then their end: the lines of its answers are written, and
/// how the stream ended is told. It stops at the first piece that is refused.
pub(crate) fn serve_pieces(
    alloc: Global,
    pieces: &[Bytes],
    text: &mut String,
) -> Result<Result<(), SftpError>, AllocError>
    ensures { IfOk result (λ ended. AreServed pieces.now ended (string_bytes text.old)
        (string_bytes text.new)) }
{
    let mut server = SftpServer::new(alloc);
    for piece in pieces {
        let fed = serve_piece(alloc, &mut server, piece.as_slice(), text)?;
        if fed.is_err() {
            return Ok(fed);
        }
    }
    Ok(server.end())
}
