// What a caller is told of a callback: those of which no notice tells.
use crate::entries::Entry;
use ssh_auth::Call;
use ssh_embed::NoMemory;
use ssh_handler::RecordError;
use ssh_wire::{WireError, put_text, put_u32};
use std::alloc::Global;

/// A callback as the connection tells it.
pub(crate) type Told = Call<RecordError<NoMemory>>;

/// The entry of a callback, without its bytes; none where a notice tells the same, or where the
/// caller gave the answer itself.
pub(crate) fn call_entry(call: &Told) -> Option<Entry> {
    match call {
        Call::AuthSucceeded { .. } => Some(Entry::new(40, 0, 0, 0)),
        Call::ChannelOpenSession { channel, .. } => Some(Entry::new(41, channel.0, 0, 0)),
        Call::ChannelOpenDirectTcpip { channel, .. } => Some(Entry::new(42, channel.0, 0, 0)),
        Call::ChannelOpenDirectStreamlocal { channel, .. } => {
            Some(Entry::new(43, channel.0, 0, 0))
        }
        Call::TcpipForward { .. } => Some(Entry::new(44, 0, 0, 0)),
        Call::CancelTcpipForward { .. } => Some(Entry::new(45, 0, 0, 0)),
        _ => None,
    }
}

/// The fields that a callback carries, as SSH spells them (RFC 4251 section 5).
pub(crate) fn call_fields(alloc: Global, call: &Told) -> Result<Vec<u8>, WireError> {
    let mut fields = Vec::new(alloc);
    put_call(&mut fields, call)?;
    Ok(fields)
}

// Puts the fields of a callback.
fn put_call(fields: &mut Vec<u8>, call: &Told) -> Result<(), WireError> {
    match call {
        Call::ChannelOpenDirectTcpip {
            host_to_connect,
            port_to_connect,
            originator_address,
            originator_port,
            ..
        } => {
            put_text(fields, host_to_connect.as_str())?;
            put_u32(fields, *port_to_connect)?;
            put_text(fields, originator_address.as_str())?;
            put_u32(fields, *originator_port)
        }
        Call::ChannelOpenDirectStreamlocal { socket_path, .. } => {
            put_text(fields, socket_path.as_str())
        }
        Call::TcpipForward { address, port, .. } => put_address(fields, address.as_str(), *port),
        Call::CancelTcpipForward { address, port, .. } => {
            put_address(fields, address.as_str(), *port)
        }
        _ => Ok(()),
    }
}

// Puts an address and a port.
fn put_address(fields: &mut Vec<u8>, address: &str, port: u32) -> Result<(), WireError> {
    put_text(fields, address)?;
    put_u32(fields, port)
}
