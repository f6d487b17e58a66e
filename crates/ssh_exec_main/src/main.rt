//! A program with a server in it. What its client sends stands here, and is served over a link in
//! memory; what the server sends is printed, one message a line.
#![tactic(auto)]

mod server;

use bytes::Bytes;
use server::ExecServer;
use ssh_handler::Config;
use ssh_keys::TableVerifier;
use ssh_link::{Calls, Frame, Input, InputKind, Inputs, MemoryLink, PlainKex, TraceEntry};
use ssh_session::run_stream;
use ssh_wire::WireError;
use std::alloc::{AllocError, Global};
use std::process::ExitCode;

/// The status where there was no memory, or standard output failed.
const FAILED: u8 = 1;

/// What the client sends: it logs in, opens two channels, runs a program on each, closes them, and
/// goes.
const CLIENT: [&[u8]; 10] = [
    b"\x05\0\0\0\x0cssh-userauth",
    b"\x32\0\0\0\x05alice\0\0\0\x0essh-connection\0\0\0\x04none",
    b"\x32\0\0\0\x05alice\0\0\0\x0essh-connection\0\0\0\x08password\0\0\0\0\x0awonderland",
    b"\x5a\0\0\0\x07session\0\0\0\0\0\x10\0\0\0\0\x40\0",
    b"\x62\0\0\0\x02\0\0\0\x04exec\x01\0\0\0\x11echo hello, world",
    b"\x61\0\0\0\x02",
    b"\x5a\0\0\0\x07session\0\0\0\x01\0\x10\0\0\0\0\x40\0",
    b"\x62\0\0\0\x03\0\0\0\x04exec\x01\0\0\0\x02ls",
    b"\x61\0\0\0\x03",
    b"\x01\0\0\0\x0b\0\0\0\x03bye\0\0\0\0",
];

/// A link over which the client sends all this.
fn client(alloc: Global) -> Result<MemoryLink, WireError> {
    let mut inputs = Inputs::new(alloc);
    for payload in CLIENT {
        inputs.push(Input {
            moment: 0,
            kind: InputKind::Payload(Bytes::from_static(payload)),
        })?;
    }
    MemoryLink::new(alloc, inputs, Calls::new(alloc))
}

/// Serves the client to its end, and says whether that went well.
fn serve(alloc: Global, link: &mut MemoryLink) -> bool {
    let config = Config::standard();
    let verifier = TableVerifier::new(alloc);
    let mut server = ExecServer::new(alloc);
    let mut kex = PlainKex::new(alloc, false);
    let run = run_stream(
        alloc,
        &config,
        b"session id",
        b"SSH-2.0-example",
        &mut server,
        &verifier,
        &mut kex,
        link,
        1_000_000,
    );
    let well = run.is_ok();
    drop(run);
    well
}

/// A line for a message: its number, and what stands behind it.
fn line(alloc: Global, frame: &Frame) -> Result<String, AllocError> {
    let (head, body) = frame.parts();
    let mut payload = Vec::new(alloc);
    payload.extend_from_slice(head)?;
    payload.extend_from_slice(body)?;
    match payload.as_slice() {
        [number] => format!(in alloc; "{number}\n"),
        [number, fields @ ..] => format!(in alloc; "{number} {}\n", fields.escape_ascii()),
        [] => format!(in alloc; "\n"),
    }
}

/// The messages that were sent, in order.
fn sent(alloc: Global, trace: &[TraceEntry]) -> Result<String, AllocError> {
    let mut lines = String::new(alloc);
    for entry in trace {
        if let TraceEntry::Sent(frame) = entry {
            lines.push_str(line(alloc, frame)?.as_str())?;
        }
    }
    Ok(lines)
}

/// What is printed; none where the run did not end well.
fn output(alloc: Global) -> Option<String> {
    let mut link = client(alloc).ok()?;
    if !serve(alloc, &mut link) {
        return None;
    }
    sent(alloc, link.trace()).ok()
}

fn main(rt: HostRuntime) -> ExitCode {
    let Some(lines) = output(rt.alloc()) else {
        return ExitCode::from(FAILED);
    };
    match print!(rt; "{lines}") {
        Ok(()) => ExitCode::SUCCESS,
        Err(_) => ExitCode::from(FAILED),
    }
}
