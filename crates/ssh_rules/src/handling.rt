// What is done by the type of an open (RFC 4254 section 5.1).
ghost use Rattle.std.specs.Prelude.{◌≡◌};
ghost use Rattle.ssh_rules.specs.Types.{handling};

use ssh_auth::OpenType;
use ssh_wire::ChannelType;

/// What is done by the type of an open.
#[derive(Debug, Drop)]
pub enum Handling {
    /// The handler is asked.
    Asks(OpenType),
    /// It is refused: the peer gave up opening sessions (OpenSSH PROTOCOL section 2.2).
    GivenUp,
    /// It is refused: a server takes no channel of this type.
    Unsupported,
    /// It is refused: the type is not known.
    Unknown,
}

/// How an open of this type is handled, by whether the peer said that it opens no more sessions: one
/// line a type.
pub fn handled_by(typ: ChannelType, no_more_sessions: bool) -> Handling
    ensures { result ≡ handling no_more_sessions typ }
{
    match typ {
        ChannelType::Session if no_more_sessions => Handling::GivenUp,
        ChannelType::Session => Handling::Asks(OpenType::Session),
        ChannelType::X11 {
            originator_address,
            originator_port,
        } => Handling::Asks(OpenType::X11 {
            originator_address,
            originator_port,
        }),
        ChannelType::DirectTcpip(info) => Handling::Asks(OpenType::DirectTcpip {
            host_to_connect: info.host_to_connect,
            port_to_connect: info.port_to_connect,
            originator_address: info.originator_address,
            originator_port: info.originator_port,
        }),
        ChannelType::ForwardedTcpIp(info) => Handling::Asks(OpenType::ForwardedTcpip {
            host_to_connect: info.host_to_connect,
            port_to_connect: info.port_to_connect,
            originator_address: info.originator_address,
            originator_port: info.originator_port,
        }),
        ChannelType::DirectStreamLocal(info) => Handling::Asks(OpenType::DirectStreamlocal {
            socket_path: info.socket_path,
        }),
        ChannelType::ForwardedStreamLocal(_) => Handling::Unsupported,
        ChannelType::AgentForward => Handling::Unsupported,
        ChannelType::Unknown { .. } => Handling::Unknown,
    }
}
