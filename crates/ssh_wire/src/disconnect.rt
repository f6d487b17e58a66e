// Why a connection is ended.
ghost use Rattle.std.specs.Prelude.{◌≡◌};
ghost use Rattle.ssh_wire.specs.Disconnects.{disconnect_code};

/// Why a connection is ended (RFC 4253 section 11.1).
#[derive(Clone, Copy, Debug, PartialEq, Eq)]
pub enum Disconnect {
    /// The host may not connect.
    HostNotAllowedToConnect = 1,
    /// The peer broke the protocol.
    ProtocolError = 2,
    /// The key exchange failed.
    KeyExchangeFailed = 3,
    /// A code that is reserved.
    Reserved = 4,
    /// A packet's code of authentication was wrong.
    MACError = 5,
    /// A packet could not be inflated.
    CompressionError = 6,
    /// The service is not offered.
    ServiceNotAvailable = 7,
    /// The version of the protocol is not supported.
    ProtocolVersionNotSupported = 8,
    /// The host's key could not be verified.
    HostKeyNotVerifiable = 9,
    /// The connection was lost.
    ConnectionLost = 10,
    /// The application ends the connection.
    ByApplication = 11,
    /// There are too many connections.
    TooManyConnections = 12,
    /// The user gave up the authentication.
    AuthCancelledByUser = 13,
    /// No method of authentication is left.
    NoMoreAuthMethodsAvailable = 14,
    /// The user's name is not allowed.
    IllegalUserName = 15,
}

impl Disconnect {
    /// The reason's code on the wire (RFC 4250 section 4.2.2).
    pub fn code(self) -> u32
        ensures { result ≡ disconnect_code self }
    {
        self as u32
    }
}
