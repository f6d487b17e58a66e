// A large session that no script writes: what the word `generate` asks for.
ghost use Rattle.std.specs.Prelude.{◌≡◌, ◌≤◌, ◌%◌, codes, replicate, IfOk};
ghost use Rattle.ssh_wire.specs.Messages.{written};
ghost use Rattle.ssh_wire.specs.Messages as message;
ghost use Rattle.ssh_scene.specs.Scene.{scene_of};
ghost use Rattle.ssh_scene.specs.Generated.{data_for, generated, letting_in};

use crate::answers::Verdict;
use crate::lines::InputLine;
use crate::script::Script;
use bytes::Bytes;
use ssh_link::Command;
use ssh_wire::message::{CHANNEL_OPEN, SERVICE_REQUEST, USERAUTH_REQUEST};
use ssh_wire::{ChannelId, WireError, put_text, put_u8, put_u32};
use std::alloc::{AllocError, Global};

/// How many bytes are sent on each channel.
const BYTES_EACH: usize = 65_536;

/// How many bytes the peer takes on each channel.
const WINDOW: u32 = 1_048_576;

/// How many bytes of data it takes in one message.
const PACKET_SIZE: u32 = 32_768;

/// This side's number of the first channel.
const FIRST_CHANNEL: u32 = 2;

/// SERVICE_REQUEST for authentication (RFC 4253 section 10).
fn service_request(alloc: Global) -> Result<Bytes, WireError>
    ensures { IfOk result (λ payload. payload
        ≡ written message.service_request (codes "ssh-userauth", tt)) }
{
    let mut payload = Vec::new(alloc);
    put_u8(&mut payload, SERVICE_REQUEST)?;
    put_text(&mut payload, "ssh-userauth")?;
    Ok(Bytes::from_vec(payload)?)
}

/// USERAUTH_REQUEST of alice by the method none (RFC 4252 section 5).
fn none_request(alloc: Global) -> Result<Bytes, WireError>
    ensures { IfOk result (λ payload. payload ≡ written message.userauth_request
        (codes "alice", (codes "ssh-connection", (codes "none", tt)))) }
{
    let mut payload = Vec::new(alloc);
    put_u8(&mut payload, USERAUTH_REQUEST)?;
    put_text(&mut payload, "alice")?;
    put_text(&mut payload, "ssh-connection")?;
    put_text(&mut payload, "none")?;
    Ok(Bytes::from_vec(payload)?)
}

/// CHANNEL_OPEN of a session of this number of the peer (RFC 4254 section 5.1).
fn session_open(alloc: Global, peer: u32) -> Result<Bytes, WireError>
    ensures { IfOk result (λ payload. payload ≡ written message.channel_open
        (codes "session", (peer, (1048576, (32768, tt))))) }
{
    let mut payload = Vec::new(alloc);
    put_u8(&mut payload, CHANNEL_OPEN)?;
    put_text(&mut payload, "session")?;
    put_u32(&mut payload, peer)?;
    put_u32(&mut payload, WINDOW)?;
    put_u32(&mut payload, PACKET_SIZE)?;
    Ok(Bytes::from_vec(payload)?)
}

/// What is sent on the channel that the peer calls so.
fn data_for(alloc: Global, peer: u32) -> Result<Bytes, AllocError>
    ensures { IfOk result (λ bytes. bytes ≡ data_for peer) }
{
    let bytes = vec![in alloc; (peer % 251) as u8; BYTES_EACH]?;
    Ok(Bytes::from_vec(bytes)?)
}

/// A script that lets alice in, with room for the lines of so many channels.
fn opening(alloc: Global, channels: u32) -> Result<Script, AllocError>
    ensures { IfOk result (λ script. scene_of script ≡ letting_in) }
{
    let mut script = Script::new(alloc)?;
    script.answers.none.push(Verdict::Accept)?;
    script.inputs.reserve(2 + 2 * channels as usize)?;
    Ok(script)
}

/// The script of a session with so many channels, which the peer opens and on each of which data
/// are sent. `NoMemory` is the only error.
pub fn generated_script(alloc: Global, channels: u32) -> Result<Script, WireError>
    requires { channels ≤ 1000 }
    ensures { IfOk result (λ script. scene_of script ≡ generated channels) }
{
    let mut script = opening(alloc, channels)?;
    let service = service_request(alloc)?;
    script.take_live(InputLine::Recv(service))?;
    let none = none_request(alloc)?;
    script.take_live(InputLine::Recv(none))?;
    for peer in 0..channels {
        let open = session_open(alloc, peer)?;
        script.take_live(InputLine::Recv(open))?;
    }
    for peer in 0..channels {
        let channel = ChannelId(peer + FIRST_CHANNEL);
        let bytes = data_for(alloc, peer)?;
        script.take_live(InputLine::Command(Command::Data { channel, bytes }))?;
    }
    Ok(script)
}
