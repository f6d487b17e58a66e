// What a handle of a file server holds: the server, and what it answered.
ghost use Rattle.std.specs.Prelude.{◌≡◌, ◌≤◌, length};

use crate::codes::{CONTINUES, NOT_TAKEN, NOTHING, TOO_SHORT, piece_code};
use crate::entries::copy_both;
use ssh_sftp::SftpServer;
use std::alloc::Global;
use std::cmp::min;

/// A file server on one stream, and its answers to the last piece, of which so many bytes were
/// taken out.
#[derive(Drop)]
pub struct FileServer {
    server: SftpServer,
    answers: Vec<u8>,
    taken: usize,
    ghost within: { taken ≤ length answers.items },
}

impl FileServer {
    ghost use Rattle.std.specs.Prelude.{◌≡◌, []};
    ghost use Rattle.ssh_sftp.specs.Replies.{begun, end_of};
    ghost use Rattle.ssh_c.specs.Codes.{piece_code};
    ghost use Rattle.ssh_c.specs.Serving.{PieceFed, AnswersTaken, waiting};

    /// A server without files, before the first byte of its client.
    pub(crate) fn new(alloc: Global) -> FileServer
        ensures begun { result.server ≡ begun }
        ensures none { waiting result ≡ [] }
    {
        FileServer {
            server: SftpServer::new(alloc),
            answers: Vec::new(alloc),
            taken: 0,
        }
    }

    /// Takes the next piece of what the client sends, unless answers wait to be taken out.
    pub(crate) fn feed_now(&mut self, piece: &[u8]) -> u32
        ensures { PieceFed self.old piece.now self.new result }
    {
        if self.taken < self.answers.len() {
            return NOT_TAKEN;
        }
        self.taken = 0;
        self.answers.clear();
        piece_code(&self.server.feed(piece, &mut self.answers))
    }

    /// Takes out the first bytes of the answers that wait, as many as `out` has room for: they
    /// stand at its start, and `count` says how many.
    pub(crate) fn next_now(&mut self, out: &mut [u8], count: &mut usize) -> u32
        ensures taken { AnswersTaken self.old self.new out.new count.new result }
        ensures nothing { result ≡ 2 → waiting self.old ≡ [] }
    {
        let waiting = &self.answers[self.taken..];
        if waiting.is_empty() {
            return NOTHING;
        }
        let length = min(waiting.len(), out.len());
        if length == 0 || !copy_both(&[], &waiting[..length], out) {
            return TOO_SHORT;
        }
        *count = length;
        self.taken += length;
        CONTINUES
    }

    /// How the stream ended, where nothing more comes.
    pub(crate) fn end_now(&self) -> u32
        ensures { result ≡ piece_code (end_of self.now.server.failed self.now.server.rest) }
    {
        piece_code(&self.server.end())
    }
}
