// The types of channel that an open names, and their own fields.
ghost use Rattle.std.specs.Prelude.{◌≡◌, ◌⊎◌, ℕ, List, [], ◌∷◌, Some, IfOk, IfErr, OnOk, OnErr};
ghost use Rattle.ssh_wire.specs.Field.{SpellsWhole, MisfitsAll, MisfitsWhole, Text as TextField};
ghost use Rattle.ssh_wire.specs.Reading.{MovesOn, ReadsAll};
ghost use Rattle.ssh_wire.specs.Open.{tcpip_fields, x11, direct_streamlocal, forwarded_streamlocal};
ghost use Rattle.ssh_wire.specs.Open.{type_named, SpellsType, MisfitsType};
ghost use Rattle.ssh_wire.specs.declared.error.WireError.TheVariants.{NoMemory};

use crate::{Reader, Text, WireError};
use std::alloc::Global;

/// What an open asks for (RFC 4254 section 5.1).
#[derive(Debug, Drop, PartialEq, Eq)]
pub enum ChannelType {
    /// An interactive session (RFC 4254 section 6.1).
    Session,
    /// A connection to the X server (RFC 4254 section 6.3.2).
    X11 {
        /// The address that the connection comes from.
        originator_address: Text,
        /// The port that the connection comes from.
        originator_port: u32,
    },
    /// A connection out of the server (RFC 4254 section 7.2).
    DirectTcpip(TcpChannelInfo),
    /// A connection to a socket in the server's file system (OpenSSH PROTOCOL section 2.4).
    DirectStreamLocal(StreamLocalChannelInfo),
    /// A connection to a forwarded port (RFC 4254 section 7.2).
    ForwardedTcpIp(TcpChannelInfo),
    /// A connection to a forwarded socket (OpenSSH PROTOCOL section 2.4).
    ForwardedStreamLocal(StreamLocalChannelInfo),
    /// A connection to the authentication agent.
    AgentForward,
    /// A type that is not read, whose own fields stay unread.
    Unknown {
        /// The name of the type.
        typ: Text,
    },
}

/// The two ends of a TCP connection (RFC 4254 section 7.2).
#[derive(Debug, Drop, PartialEq, Eq)]
pub struct TcpChannelInfo {
    /// The host to connect to, or the address that was connected to.
    pub host_to_connect: Text,
    /// The port to connect to, or the one that was connected to.
    pub port_to_connect: u32,
    /// The address that the connection comes from.
    pub originator_address: Text,
    /// The port that the connection comes from.
    pub originator_port: u32,
}

/// The end of a connection to a Unix socket (OpenSSH PROTOCOL section 2.4).
#[derive(Debug, Drop, PartialEq, Eq)]
pub struct StreamLocalChannelInfo {
    /// The path of the socket.
    pub socket_path: Text,
}

impl TcpChannelInfo {
    /// Reads two addresses, each with its port; what follows stays unread (RFC 4254 section 7.2).
    pub fn decode(alloc: Global, r: &mut Reader<'_>) -> Result<TcpChannelInfo, WireError>
        ensures ok { IfOk result (λ info. ReadsAll tcpip_fields r.old r.new (
          info.host_to_connect,
          (
            info.port_to_connect,
            (info.originator_address, (info.originator_port, tt)),
          ),
        )) }
        ensures misfit { IfErr result (λ why. (why ≡ NoMemory)
            ⊎ MisfitsAll tcpip_fields r.old.left why) }
        ensures err { OnErr result (r.new ≡ r.old) }
    {
        let mut ahead = r.ahead();
        let host_to_connect = ahead.text()?;
        let port_to_connect = ahead.u32()?;
        let originator_address = ahead.text()?;
        let originator_port = ahead.u32()?;
        let info = TcpChannelInfo {
            host_to_connect: Text::new(alloc, host_to_connect)?,
            port_to_connect,
            originator_address: Text::new(alloc, originator_address)?,
            originator_port,
        };
        *r = ahead;
        Ok(info)
    }
}

impl StreamLocalChannelInfo {
    /// Reads a path; what follows stays unread (OpenSSH PROTOCOL section 2.4).
    pub fn decode(alloc: Global, r: &mut Reader<'_>) -> Result<StreamLocalChannelInfo, WireError>
        ensures ok { IfOk result (λ info. ReadsAll (TextField ∷ []) r.old r.new
            (info.socket_path, tt)) }
        ensures misfit { IfErr result (λ why. (why ≡ NoMemory)
            ⊎ MisfitsAll (TextField ∷ []) r.old.left why) }
        ensures err { OnErr result (r.new ≡ r.old) }
    {
        let mut ahead = r.ahead();
        let socket_path = Text::new(alloc, ahead.text()?)?;
        *r = ahead;
        Ok(StreamLocalChannelInfo { socket_path })
    }
}

/// Reads the fields of a connection to the X server, and their end.
fn whole_x11(alloc: Global, r: &mut Reader<'_>) -> Result<ChannelType, WireError>
    ensures ok { IfOk result (λ typ. SpellsType (Some x11) [] typ r.old.left r.new.left) }
    ensures moves { OnOk result (MovesOn r.old r.new) }
    ensures misfit { IfErr result (λ why. (why ≡ NoMemory)
        ⊎ MisfitsWhole x11.fields r.old.left why) }
{
    let originator_address = r.text()?;
    let originator_port = r.u32()?;
    r.end()?;
    Ok(ChannelType::X11 {
        originator_address: Text::new(alloc, originator_address)?,
        originator_port,
    })
}

/// Reads the fields of a TCP connection, and their end.
fn whole_tcpip(alloc: Global, r: &mut Reader<'_>) -> Result<TcpChannelInfo, WireError>
    ensures ok { IfOk result (λ info. SpellsWhole tcpip_fields (
      info.host_to_connect,
      (
        info.port_to_connect,
        (info.originator_address, (info.originator_port, tt)),
      ),
    ) r.old.left) }
    ensures moves { OnOk result ((r.new.left ≡ []) × MovesOn r.old r.new) }
    ensures misfit { IfErr result (λ why. (why ≡ NoMemory)
        ⊎ MisfitsWhole tcpip_fields r.old.left why) }
{
    let info = TcpChannelInfo::decode(alloc, r)?;
    r.end()?;
    Ok(info)
}

/// Reads a path and two reserved fields, and their end.
fn whole_direct_streamlocal(
    alloc: Global,
    r: &mut Reader<'_>,
) -> Result<StreamLocalChannelInfo, WireError>
    ensures ok { IfOk result (λ info. (text : List ℕ) × (n : ℕ)
        × SpellsWhole direct_streamlocal.fields (info.socket_path, (text, (n, tt))) r.old.left) }
    ensures moves { OnOk result ((r.new.left ≡ []) × MovesOn r.old r.new) }
    ensures misfit { IfErr result (λ why. (why ≡ NoMemory)
        ⊎ MisfitsWhole direct_streamlocal.fields r.old.left why) }
{
    let info = StreamLocalChannelInfo::decode(alloc, r)?;
    r.text()?;
    r.u32()?;
    r.end()?;
    Ok(info)
}

/// Reads a path and a reserved field, and their end.
fn whole_forwarded_streamlocal(
    alloc: Global,
    r: &mut Reader<'_>,
) -> Result<StreamLocalChannelInfo, WireError>
    ensures ok { IfOk result (λ info. (text : List ℕ)
        × SpellsWhole forwarded_streamlocal.fields (info.socket_path, (text, tt)) r.old.left) }
    ensures moves { OnOk result ((r.new.left ≡ []) × MovesOn r.old r.new) }
    ensures misfit { IfErr result (λ why. (why ≡ NoMemory)
        ⊎ MisfitsWhole forwarded_streamlocal.fields r.old.left why) }
{
    let info = StreamLocalChannelInfo::decode(alloc, r)?;
    r.text()?;
    r.end()?;
    Ok(info)
}

impl ChannelType {
    /// Reads the fields of the type of this name: a known type's to the last byte, of another none.
    pub(crate) fn decode(
        alloc: Global,
        name: &str,
        r: &mut Reader<'_>,
    ) -> Result<ChannelType, WireError>
        ensures ok { IfOk result (λ typ. SpellsType (type_named name.now) name.now typ r.old.left
            r.new.left) }
        ensures moves { OnOk result (MovesOn r.old r.new) }
        ensures misfit { IfErr result (λ why. (why ≡ NoMemory)
            ⊎ MisfitsType (type_named name.now) r.old.left why) }
    {
        match name {
            "session" => {
                r.end()?;
                Ok(ChannelType::Session)
            }
            "x11" => whole_x11(alloc, r),
            "direct-tcpip" => Ok(ChannelType::DirectTcpip(whole_tcpip(alloc, r)?)),
            "forwarded-tcpip" => Ok(ChannelType::ForwardedTcpIp(whole_tcpip(alloc, r)?)),
            "direct-streamlocal@openssh.com" => {
                Ok(ChannelType::DirectStreamLocal(whole_direct_streamlocal(alloc, r)?))
            }
            "forwarded-streamlocal@openssh.com" => {
                Ok(ChannelType::ForwardedStreamLocal(whole_forwarded_streamlocal(alloc, r)?))
            }
            "auth-agent@openssh.com" => {
                r.end()?;
                Ok(ChannelType::AgentForward)
            }
            _ => Ok(ChannelType::Unknown {
                typ: Text::new(alloc, name)?,
            }),
        }
    }
}
