// Global requests of the peer, and replies to those of this side, as they are read (RFC 4254
// section 4).
ghost use Rattle.std.specs.Prelude.{◌≡◌, Some};
ghost use Rattle.ssh_rules.specs.Spelling.{IsRead};
ghost use Rattle.ssh_rules.specs.Globals.{global_layout, global_named};
ghost use Rattle.ssh_rules.specs.Globals.{port_told, global_request_message, success, denial};
ghost use Rattle.ssh_rules.specs.Globals as known;

use crate::message::{read_address, read_end, read_global_request, read_text};
use ssh_auth::Judged;
use ssh_link::Notice;
use ssh_rules::{Outstanding, Spoken};
use ssh_wire::{Text, WireError};
use std::alloc::Global;

/// A request as far as all are alike: whether a reply is wanted.
#[derive(Clone, Copy)]
struct GlobalRequestHead {
    /// Where memory is taken.
    alloc: Global,
    /// Whether a reply is wanted.
    wanted: bool,
}

/// Connections to an address are to be forwarded (section 7.1).
fn request_forward(asking: GlobalRequestHead, rest: &[u8]) -> Result<Spoken, WireError>
    ensures { IsRead (global_layout (Some known.forward) asking.wanted) rest.now result }
{
    let (address, port) = read_address(rest)?;
    let address = Text::new(asking.alloc, address)?;
    Ok(Spoken::RequestsForward(asking.wanted, address, port))
}

/// They are to be forwarded no longer (section 7.1).
fn request_cancel(asking: GlobalRequestHead, rest: &[u8]) -> Result<Spoken, WireError>
    ensures { IsRead (global_layout (Some known.cancel_forward) asking.wanted) rest.now
        result }
{
    let (address, port) = read_address(rest)?;
    let address = Text::new(asking.alloc, address)?;
    let judged = Judged::CancelTcpipForward { address, port };
    Ok(Spoken::RequestsGlobally(asking.wanted, judged))
}

/// Connections to a socket are to be forwarded (OpenSSH PROTOCOL section 2.4).
fn request_forward_socket(asking: GlobalRequestHead, rest: &[u8]) -> Result<Spoken, WireError>
    ensures { IsRead (global_layout (Some known.forward_socket) asking.wanted) rest.now
        result }
{
    let path = read_text(rest)?;
    let socket_path = Text::new(asking.alloc, path)?;
    let judged = Judged::StreamlocalForward { socket_path };
    Ok(Spoken::RequestsGlobally(asking.wanted, judged))
}

/// They are to be forwarded no longer (OpenSSH PROTOCOL section 2.4).
fn request_cancel_socket(asking: GlobalRequestHead, rest: &[u8]) -> Result<Spoken, WireError>
    ensures { IsRead (global_layout (Some known.cancel_socket) asking.wanted) rest.now
        result }
{
    let path = read_text(rest)?;
    let socket_path = Text::new(asking.alloc, path)?;
    let judged = Judged::CancelStreamlocalForward { socket_path };
    Ok(Spoken::RequestsGlobally(asking.wanted, judged))
}

/// The peer will open no more sessions (OpenSSH PROTOCOL section 2.2).
fn give_up_sessions(asking: GlobalRequestHead, rest: &[u8]) -> Result<Spoken, WireError>
    ensures { IsRead (global_layout (Some known.no_more_sessions) asking.wanted) rest.now
        result }
{
    read_end(rest)?;
    Ok(Spoken::GivesUpSessions(asking.wanted))
}

/// What a request of this name says: one line a request. Of one that is not known nothing is read.
fn global_request(asking: GlobalRequestHead, name: &str, rest: &[u8]) -> Result<Spoken, WireError>
    ensures { IsRead (global_layout (global_named name.now) asking.wanted) rest.now result }
{
    match name {
        "tcpip-forward" => request_forward(asking, rest),
        "cancel-tcpip-forward" => request_cancel(asking, rest),
        "streamlocal-forward@openssh.com" => request_forward_socket(asking, rest),
        "cancel-streamlocal-forward@openssh.com" => request_cancel_socket(asking, rest),
        "no-more-sessions@openssh.com" => give_up_sessions(asking, rest),
        _ => Ok(Spoken::RequestsGloballyUnknown(asking.wanted)),
    }
}

/// The port that the peer listens at: it tells none where it listens at the one that was asked for,
/// and what is no port counts as a refusal (section 7.1).
fn port_told(rest: &[u8]) -> Option<u32>
    ensures { result ≡ port_told rest.now }
{
    match rest {
        [] => Some(0),
        [a, b, c, d] => Some(u32::from_be_bytes([*a, *b, *c, *d])),
        _ => None,
    }
}

/// GLOBAL_REQUEST.
pub fn global_request_message(alloc: Global, fields: &[u8]) -> Result<Spoken, WireError>
    ensures { IsRead global_request_message fields.now result }
{
    let asked = read_global_request(fields)?;
    let asking = GlobalRequestHead {
        alloc,
        wanted: asked.wanted,
    };
    global_request(asking, asked.name, asked.rest)
}

/// REQUEST_SUCCESS, by the oldest request of this side that waits. It is not read where none does.
pub fn success_message(oldest: Option<Outstanding>, fields: &[u8]) -> Result<Spoken, WireError>
    ensures { IsRead (success oldest) fields.now result }
{
    let told = match oldest {
        None => return Ok(Spoken::Nothing),
        Some(Outstanding::Forward { slot }) => {
            let port = port_told(fields);
            return Ok(Spoken::Settles(Some(Notice::Forwarded { slot, port })));
        }
        Some(Outstanding::Cancel { slot }) => Some(Notice::Cancelled { slot, ok: true }),
        Some(Outstanding::Ping { slot }) => Some(Notice::Pong { slot }),
        Some(Outstanding::Keepalive) => None,
    };
    read_end(fields)?;
    Ok(Spoken::Settles(told))
}

/// REQUEST_FAILURE, by the oldest request of this side that waits.
pub fn failure_message(oldest: Option<Outstanding>, fields: &[u8]) -> Result<Spoken, WireError>
    ensures { IsRead (denial oldest) fields.now result }
{
    read_end(fields)?;
    let told = match oldest {
        None => return Ok(Spoken::Nothing),
        Some(Outstanding::Forward { slot }) => Some(Notice::Forwarded { slot, port: None }),
        Some(Outstanding::Cancel { slot }) => Some(Notice::Cancelled { slot, ok: false }),
        Some(Outstanding::Ping { slot }) => Some(Notice::Pong { slot }),
        Some(Outstanding::Keepalive) => None,
    };
    Ok(Spoken::Settles(told))
}
