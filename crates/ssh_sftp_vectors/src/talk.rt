// A client that sends packets to a server, and what comes back.
use ssh_sftp::{SftpError, SftpServer};
use ssh_wire::{Reader, put_bytes};
use std::alloc::Global;

#[derive(Drop)]
pub struct Talk {
    server: SftpServer,
    sent: Vec<u8>,
    out: Vec<u8>,
}

impl Talk {
    pub fn new(alloc: Global) -> Talk {
        Talk {
            server: SftpServer::new(alloc),
            sent: Vec::new(alloc),
            out: Vec::new(alloc),
        }
    }

    // Sends these bytes in pieces of so many, and keeps what comes back in place of what came.
    pub fn send(&mut self, bytes: &[u8], size: usize) -> Result<(), SftpError> {
        self.out.clear();
        for piece in bytes.chunks(size.max(1)) {
            self.server.feed(piece, &mut self.out)?;
        }
        Ok(())
    }

    // Sends a packet with its length in front, in pieces of so many bytes.
    pub fn ask(&mut self, packet: &[u8], size: usize) -> Result<(), SftpError> {
        self.sent.clear();
        put_bytes(&mut self.sent, packet)?;
        self.out.clear();
        for piece in self.sent.chunks(size.max(1)) {
            self.server.feed(piece, &mut self.out)?;
        }
        Ok(())
    }

    // Whether just this packet came back, with its length in front.
    pub fn tells(&self, packet: &[u8]) -> bool {
        let mut reader = Reader::new(&self.out);
        reader.bytes() == Ok(packet) && reader.end().is_ok()
    }

    // What came back.
    pub fn out(&self) -> &[u8] {
        &self.out
    }

    pub fn end(&self) -> Result<(), SftpError> {
        self.server.end()
    }

    pub fn failed(&self) -> bool {
        self.server.failed()
    }
}
