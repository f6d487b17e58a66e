// Why a channel is not opened.
ghost use Rattle.std.specs.Prelude.{◌≡◌, IfSome, Some};
ghost use Rattle.ssh_wire.specs.declared.open_failure.ChannelOpenFailure.{ChannelOpenFailure};
ghost use Rattle.ssh_wire.specs.OpenFailures.{open_failure_code, open_failure_text};

/// Why a channel is not opened (RFC 4254 section 5.1).
#[derive(Clone, Copy, Debug, PartialEq, Eq)]
pub enum ChannelOpenFailure {
    /// The server's rules forbid it.
    AdministrativelyProhibited = 1,
    /// The connection to the target failed.
    ConnectFailed = 2,
    /// The type of the channel is not known.
    UnknownChannelType = 3,
    /// Something that the channel needs is short.
    ResourceShortage = 4,
}

impl ChannelOpenFailure {
    /// The reason's code on the wire.
    pub fn code(self) -> u32
        ensures { result ≡ open_failure_code self }
    {
        self as u32
    }

    /// The reason that has this code. There is none outside 1 to 4.
    pub fn from_u32(code: u32) -> Option<ChannelOpenFailure>
        ensures code { IfSome result (λ reason. open_failure_code reason ≡ code) }
        ensures known { (reason : ChannelOpenFailure) → open_failure_code reason ≡ code
            → result ≡ Some reason }
    {
        match code {
            1 => Some(ChannelOpenFailure::AdministrativelyProhibited),
            2 => Some(ChannelOpenFailure::ConnectFailed),
            3 => Some(ChannelOpenFailure::UnknownChannelType),
            4 => Some(ChannelOpenFailure::ResourceShortage),
            _ => None,
        }
    }

    /// The reason in words, for the description that goes to the peer.
    pub fn description(self) -> &'static str
        ensures { result.now ≡ open_failure_text self }
    {
        match self {
            ChannelOpenFailure::AdministrativelyProhibited => "administratively prohibited",
            ChannelOpenFailure::ConnectFailed => "connect failed",
            ChannelOpenFailure::UnknownChannelType => "unknown channel type",
            ChannelOpenFailure::ResourceShortage => "resource shortage",
        }
    }
}
