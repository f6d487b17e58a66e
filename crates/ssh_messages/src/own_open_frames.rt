// What opens of this side ask for, and their messages (RFC 4254 section 5.1).
ghost use Rattle.std.specs.Prelude.{◌≡◌, ◌≤◌, ◌<◌, ◌^◌, ◌⊎◌, ◌++◌, [], Some, None, length};
ghost use Rattle.std.specs.Prelude.{OnOk, IfOk, IfErr, IsErrOf, MatchOption};
ghost use Rattle.ssh_wire.specs.Field.{string, number};
ghost use Rattle.ssh_wire.specs.declared.error.WireError.TheVariants.{NoMemory, TooLong};
ghost use Rattle.ssh_wire.specs.Messages.{written, channel_open};
ghost use Rattle.ssh_rules.specs.OwnOpens.{own_open_of, own_fields, open_frame};

use crate::channel_frames::frame_on;
use ssh_link::{Command, Frame};
use ssh_wire::message::CHANNEL_OPEN;
use ssh_wire::{ChannelId, Text, WireError, put_text, put_u8, put_u32};
use std::alloc::Global;

/// The name of the type of channel that a command opens; none where it opens none.
pub fn type_name(command: &Command) -> Option<&'static str>
    ensures { MatchOption result (own_open_of command.now ≡ None)
        (λ name. own_open_of command.now
        ≡ Some (record { name = name.now; fields = own_fields (own_open_of command.now) })) }
{
    match command {
        Command::OpenSession => Some("session"),
        Command::OpenAgent => Some("auth-agent@openssh.com"),
        Command::OpenDirectTcpip { .. } => Some("direct-tcpip"),
        Command::OpenForwardedTcpip { .. } => Some("forwarded-tcpip"),
        Command::OpenDirectStreamlocal { .. } => Some("direct-streamlocal@openssh.com"),
        Command::OpenForwardedStreamlocal { .. } => Some("forwarded-streamlocal@openssh.com"),
        Command::OpenX11 { .. } => Some("x11"),
        _ => None,
    }
}

/// Appends an address and its port.
fn put_address(out: &mut Vec<u8>, address: &Text, port: u32) -> Result<(), WireError>
    ensures ok { OnOk result (out.new.items ≡ out.old.items ++ string address.now ++ number port) }
    ensures too_long { IsErrOf result WireError.TooLong → 2 ^ 32 ≤ length address.now }
    ensures errors { IfErr result (λ e. (e ≡ TooLong) ⊎ (e ≡ NoMemory)) }
{
    put_text(out, address.as_str())?;
    put_u32(out, port)
}

/// Appends two addresses, each with its port.
fn put_addresses(
    out: &mut Vec<u8>,
    host: &Text,
    port: u32,
    from: &Text,
    from_port: u32,
) -> Result<(), WireError>
    ensures ok { OnOk result (out.new.items ≡ out.old.items
        ++ (string host.now ++ (number port ++ (string from.now ++ number from_port)))) }
    ensures too_long { IsErrOf result WireError.TooLong →
        (2 ^ 32 ≤ length host.now) ⊎ (2 ^ 32 ≤ length from.now) }
    ensures errors { IfErr result (λ e. (e ≡ TooLong) ⊎ (e ≡ NoMemory)) }
{
    put_address(out, host, port)?;
    put_address(out, from, from_port)
}

/// Appends a path and an empty reserved field.
fn put_path(out: &mut Vec<u8>, path: &Text) -> Result<(), WireError>
    ensures ok { OnOk result (out.new.items ≡ out.old.items ++ (string path.now ++ string [])) }
    ensures too_long { IsErrOf result WireError.TooLong → 2 ^ 32 ≤ length path.now }
    ensures errors { IfErr result (λ e. (e ≡ TooLong) ⊎ (e ≡ NoMemory)) }
{
    put_text(out, path.as_str())?;
    put_text(out, "")
}

/// Appends the own fields of the type of channel that a command opens.
pub fn put_own_fields(out: &mut Vec<u8>, command: &Command) -> Result<(), WireError>
    ensures ok { OnOk result (out.new.items ≡ out.old.items ++ own_fields (own_open_of command.now)) }
    ensures too_long { IsErrOf result WireError.TooLong →
        2 ^ 32 ≤ length (own_fields (own_open_of command.now)) }
    ensures errors { IfErr result (λ e. (e ≡ TooLong) ⊎ (e ≡ NoMemory)) }
{
    match command {
        Command::OpenDirectTcpip {
            host,
            port,
            originator,
            originator_port,
        } => put_addresses(out, host, *port, originator, *originator_port),
        Command::OpenForwardedTcpip {
            host,
            port,
            originator,
            originator_port,
        } => put_addresses(out, host, *port, originator, *originator_port),
        Command::OpenDirectStreamlocal { path } => {
            put_path(out, path)?;
            put_u32(out, 0)
        }
        Command::OpenForwardedStreamlocal { path } => put_path(out, path),
        Command::OpenX11 {
            originator,
            originator_port,
        } => put_address(out, originator, *originator_port),
        _ => Ok(()),
    }
}

/// CHANNEL_OPEN up to the packet size.
fn open_head(
    alloc: Global,
    own: ChannelId,
    name: &str,
    window: u32,
    packet: u32,
) -> Result<Vec<u8>, WireError>
    requires short { length name.now < 2 ^ 32 }
    ensures ok { IfOk result (λ payload. payload.items
        ≡ written channel_open (name.now, (own.0, (window, (packet, tt))))) }
    ensures memory { IfErr result (λ e. e ≡ NoMemory) }
{
    let mut payload = Vec::new(alloc);
    put_u8(&mut payload, CHANNEL_OPEN)?;
    put_text(&mut payload, name)?;
    put_u32(&mut payload, own.0)?;
    put_u32(&mut payload, window)?;
    put_u32(&mut payload, packet)?;
    Ok(payload)
}

/// CHANNEL_OPEN: `window` and `packet` are what this side takes, in bytes (RFC 4254 section 5.1).
/// `NoMemory` is the only error.
pub fn own_open_frame(
    alloc: Global,
    own: ChannelId,
    name: &str,
    window: u32,
    packet: u32,
    fields: &[u8],
) -> Result<Frame, WireError>
    requires short { length name.now < 2 ^ 32 }
    ensures ok { IfOk result (λ f. f ≡ open_frame (record
        { name = name.now; fields = fields.now }) own.0 window packet) }
    ensures memory { IfErr result (λ e. e ≡ NoMemory) }
{
    let mut payload = open_head(alloc, own, name, window, packet)?;
    payload.extend_from_slice(fields)?;
    frame_on(own, payload)
}
