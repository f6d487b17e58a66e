// Workloads on a file server: reads and writes of 32 KiB at the front of one file, and copies of as
// many bytes.
use ssh_sftp::{SftpError, SftpServer};
use ssh_wire::{put_bytes, put_u8, put_u32, put_u64};
use std::alloc::Global;

/// The words that name a workload on a file server.
pub const TRANSFERS: &str = "copy|read|write";

const BLOCK_SIZE: usize = 32_768;

const READ: u8 = 5;

const WRITE: u8 = 6;

/// INIT, and OPEN of a file to read, write and create: it gives the handle 1.
const OPENING: &[u8] = b"\0\0\0\x05\x01\0\0\0\x03\
\0\0\0\x13\x03\0\0\0\x01\0\0\0\x02/a\0\0\0\x0b\0\0\0\0";

const HANDLE: &[u8] = b"\0\0\0\x01";

/// How long the answer to a read of a block is: its length, its type, its id and its data.
const DATA_ANSWER: usize = 4 + 1 + 4 + 4 + BLOCK_SIZE;

/// How long the answer to a write is: its length, its type, its id, a code and two texts.
const STATUS_ANSWER: usize = 4 + 1 + 4 + 4 + 6 + 4;

/// What is done again and again.
#[derive(Clone, Copy, PartialEq, Eq)]
pub enum Transfer {
    /// No call: a block is copied into a vector that has room for it.
    Copy,
    /// A block is read.
    Read,
    /// A block is written.
    Write,
}

pub fn transfer_named(word: &str) -> Option<Transfer> {
    match word {
        "copy" => Some(Transfer::Copy),
        "read" => Some(Transfer::Read),
        "write" => Some(Transfer::Write),
        _ => None,
    }
}

fn block(alloc: Global) -> Result<Vec<u8>, SftpError> {
    Ok(vec![in alloc; 7; BLOCK_SIZE]?)
}

/// The head of a request at the front of the file: its type, its id, the handle and the offset.
fn put_head(packet: &mut Vec<u8>, kind: u8) -> Result<(), SftpError> {
    put_u8(packet, kind)?;
    put_u32(packet, 2)?;
    put_bytes(packet, HANDLE)?;
    put_u64(packet, 0)?;
    Ok(())
}

/// A packet with its length in front.
fn framed(alloc: Global, packet: &[u8]) -> Result<Vec<u8>, SftpError> {
    let mut frame = Vec::new(alloc);
    put_bytes(&mut frame, packet)?;
    Ok(frame)
}

fn read_request(alloc: Global) -> Result<Vec<u8>, SftpError> {
    let mut packet = Vec::new(alloc);
    put_head(&mut packet, READ)?;
    put_u32(&mut packet, BLOCK_SIZE as u32)?;
    framed(alloc, &packet)
}

fn write_request(alloc: Global, block: &[u8]) -> Result<Vec<u8>, SftpError> {
    let mut packet = Vec::new(alloc);
    put_head(&mut packet, WRITE)?;
    put_bytes(&mut packet, block)?;
    framed(alloc, &packet)
}

/// Makes the request so often, each time in one piece, and counts the answers of this length.
fn ask(
    server: &mut SftpServer,
    request: &[u8],
    out: &mut Vec<u8>,
    length: usize,
    count: u32,
) -> Result<u64, SftpError> {
    let mut done: u64 = 0;
    for _ in 0..count {
        out.clear();
        server.feed(request, out)?;
        if out.len() == length {
            done = done.saturating_add(1);
        }
    }
    Ok(done)
}

fn copy(alloc: Global, block: &[u8], count: u32) -> Result<u64, SftpError> {
    let mut out: Vec<u8> = Vec::new(alloc);
    let mut done: u64 = 0;
    for _ in 0..count {
        out.clear();
        out.extend_from_slice(block)?;
        done = done.saturating_add(1);
    }
    Ok(done)
}

/// How many of so many transfers were done.
pub fn transfers_done(alloc: Global, work: Transfer, count: u32) -> Result<u64, SftpError> {
    let block = block(alloc)?;
    if work == Transfer::Copy {
        return copy(alloc, &block, count);
    }
    let mut server = SftpServer::new(alloc);
    let mut out = Vec::new(alloc);
    server.feed(OPENING, &mut out)?;
    let write = write_request(alloc, &block)?;
    if work == Transfer::Write {
        return ask(&mut server, &write, &mut out, STATUS_ANSWER, count);
    }
    ask(&mut server, &write, &mut out, STATUS_ANSWER, 1)?;
    let read = read_request(alloc)?;
    ask(&mut server, &read, &mut out, DATA_ANSWER, count)
}
