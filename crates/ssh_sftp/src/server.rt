// A file server on a stream.
ghost use Rattle.std.specs.Prelude.{◌≡◌, ◌++◌, ◌↔◌, true, false, is_err, flat_map, OnOk, IfErr, IsErrOf};
ghost use Rattle.ssh_sftp.specs.declared.error.SftpError.TheVariants.{Failed};
ghost use Rattle.ssh_sftp.specs.Packets.{IsPartial};
ghost use Rattle.ssh_sftp.specs.Replies.{Serves, RefusesAt, begun, end_of};
ghost use Rattle.ssh_sftp.specs.Replies.{IsAnswered, IsRefused, NeverBoth};

use crate::SftpError;
use crate::feeding::feed_into;
use ssh_sftp_core::Files;
use std::alloc::Global;
use std::marker::Model;

/// A file server between two pieces of what its client sends. Its files are in memory, and there
/// are none at first.
#[derive(Drop)]
pub struct SftpServer {
    files: Files,
    rest: Vec<u8>,
    failed: bool,
}

impl Model for SftpServer {
    ghost use Rattle.std.specs.Prelude.{◌≡◌, false};
    ghost use Rattle.ssh_sftp.specs.Replies.{Server, server_code};
    ghost use Rattle.ssh_sftp.specs.Packets.{IsPartial};

    ghost Value = { Server };

    ghost coded = { server_code };

    ghost view = { λ s. record { files = s.files; rest = s.rest.items; failed = s.failed } };

    ghost invariant = { λ s. s.failed ≡ false → IsPartial s.rest.items };
}

impl SftpServer {
    /// A server before the first byte of its client.
    pub fn new(alloc: Global) -> SftpServer
        ensures { result ≡ begun }
    {
        SftpServer {
            files: Files::new(alloc),
            rest: Vec::new(alloc),
            failed: false,
        }
    }

    /// Takes the next piece of what the client sends, of any length, and appends to `out` the
    /// answer to each packet that is whole by now (draft-ietf-secsh-filexfer-02 section 3).
    /// `BadLength` and `NoId` leave the answers to the packets before in `out`, `NoMemory` those to
    /// some of them; `Failed`, where a piece was refused before, leaves `out` as it was.
    pub fn feed(&mut self, piece: &[u8], out: &mut Vec<u8>) -> Result<(), SftpError>
        ensures ok { OnOk result (Serves self.old.files (self.old.rest ++ piece.now)
            self.new.files self.new.rest out.old.items out.new.items) }
        ensures partial { OnOk result (IsPartial self.new.rest) }
        ensures err { IfErr result (λ why. RefusesAt self.old.failed self.old.files
            (self.old.rest ++ piece.now) why out.old.items out.new.items) }
        ensures failed { self.new.failed ≡ is_err result }
        ensures spent { IsErrOf result Failed ↔ (self.old.failed ≡ true) }
    {
        if self.failed {
            return Err(SftpError::Failed);
        }
        let fed = feed_into(&mut self.files, &mut self.rest, piece, out);
        self.failed = fed.is_err();
        fed
    }

    /// Whether a piece was refused. Where none was, it has less than a packet.
    pub fn failed(&self) -> bool
        ensures told { result ≡ self.now.failed }
        ensures partial { result ≡ false → IsPartial self.now.rest }
    {
        self.failed
    }

    /// The end of what the client sends: `Cut` where it ends inside a packet, `Failed` where a
    /// piece was refused.
    pub fn end(&self) -> Result<(), SftpError>
        ensures { result ≡ end_of self.now.failed self.now.rest }
    {
        if self.failed {
            return Err(SftpError::Failed);
        }
        match self.rest.len() {
            0 => Ok(()),
            left => Err(SftpError::Cut { left }),
        }
    }
}

/// Feeds a server that is as `new` made it all these pieces in turn: however a stream is cut, its
/// answers are those to its packets. It stops at the first refusal, as `feed` says it.
pub fn feed_all(
    server: &mut SftpServer,
    pieces: &[Vec<u8>],
    out: &mut Vec<u8>,
) -> Result<(), SftpError>
    requires { server.old ≡ begun }
    ensures ok { OnOk result (IsAnswered (flat_map (λ piece. piece.items) pieces.now)
        out.old.items out.new.items) }
    ensures err { IfErr result (λ why. IsRefused (flat_map (λ piece. piece.items) pieces.now) why
        out.old.items out.new.items) }
{
    for piece in pieces {
        server.feed(piece, out)?;
    }
    Ok(())
}

/// What the answers of `feed_all` rest on: a stream that has a fault is not taken whole, however it
/// is cut. It does nothing.
pub fn fault_is_refused()
    ensures { NeverBoth }
{}
