// Data as a command.
ghost use Rattle.std.specs.Prelude.{◌≡◌, min};
ghost use Rattle.ssh_handles.specs.DataCommands.{data_command, bytes_in};

use bytes::Bytes;
use ssh_link::Command;
use ssh_wire::ChannelId;

// The command that sends these bytes on the channel, as data or as data of another type.
pub fn data_command(channel: ChannelId, ext: Option<u32>, bytes: Bytes) -> Command
    ensures { result ≡ data_command channel ext bytes }
{
    match ext {
        Some(ext) => Command::ExtendedData {
            channel,
            ext,
            bytes,
        },
        None => Command::Data { channel, bytes },
    }
}

// The bytes of a command that sends some; no byte, where it sends none.
pub fn bytes_of(msg: Command) -> Bytes
    ensures { result ≡ bytes_in msg }
{
    match msg {
        Command::Data { bytes, .. } => bytes,
        Command::ExtendedData { bytes, .. } => bytes,
        other => {
            drop(other);
            Bytes::new()
        }
    }
}

// How many bytes to reserve for the next message.
pub fn wanted(packet: u32, rest: usize) -> u32
    ensures { result ≡ min packet rest }
{
    if rest < packet as usize {
        rest as u32
    } else {
        packet
    }
}
