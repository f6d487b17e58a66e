// What a handler and an exchange are asked, apart from what they answer.
use bytes::Bytes;
use ssh_keys::{Algorithm, Certificate, PublicKey};
use ssh_link::CommandOutcome;
use ssh_wire::{Blobs, ChannelId, Modes, Sig, Text};

/// Whether a user is let in (RFC 4252): what a callback of authentication is asked.
#[derive(Debug, Drop)]
pub enum Admission {
    /// By method none (RFC 4252 section 5.2).
    None {
        /// The user's name.
        user: Text,
    },
    /// By a password (RFC 4252 section 8).
    Password {
        /// The user's name.
        user: Text,
        /// The password.
        password: Text,
    },
    /// Whether a key may sign (RFC 4252 section 7).
    PublickeyOffered {
        /// The user's name.
        user: Text,
        /// The key; for a certificate, the one that is certified.
        public_key: PublicKey,
        /// The algorithm by which it would sign.
        algorithm: Algorithm,
    },
    /// By a key whose signature was accepted (RFC 4252 section 7).
    Publickey {
        /// The user's name.
        user: Text,
        /// The key.
        public_key: PublicKey,
        /// The algorithm by which it signed.
        algorithm: Algorithm,
    },
    /// By a certificate whose key's signature was accepted (OpenSSH PROTOCOL.certkeys).
    OpensshCertificate {
        /// The user's name.
        user: Text,
        /// The certificate, which holds and is validly signed.
        certificate: Certificate,
    },
    /// By prompts, or what to prompt for (RFC 4256).
    KeyboardInteractive {
        /// The user's name.
        user: Text,
        /// The submethods that the user would like, joined by commas.
        submethods: Text,
        /// The responses to the last prompts, in order; none before the first prompts.
        response: Option<Blobs>,
    },
}

/// The type of a channel that the peer opens, where it has a callback.
#[derive(Debug, Drop, PartialEq, Eq)]
pub enum OpenType {
    /// A session (RFC 4254 section 6.1).
    Session,
    /// A connection to an X server (RFC 4254 section 6.3.2).
    X11 {
        /// Where the connection comes from.
        originator_address: Text,
        /// The port there.
        originator_port: u32,
    },
    /// A connection to a host (RFC 4254 section 7.2).
    DirectTcpip {
        /// The host to connect to.
        host_to_connect: Text,
        /// Its port.
        port_to_connect: u32,
        /// Where the connection comes from.
        originator_address: Text,
        /// The port there.
        originator_port: u32,
    },
    /// A connection that came to a forwarded port (RFC 4254 section 7.2).
    ForwardedTcpip {
        /// The address that was connected to.
        host_to_connect: Text,
        /// Its port.
        port_to_connect: u32,
        /// Where the connection comes from.
        originator_address: Text,
        /// The port there.
        originator_port: u32,
    },
    /// A connection to a socket (OpenSSH PROTOCOL section 2.4).
    DirectStreamlocal {
        /// The socket's path.
        socket_path: Text,
    },
}

/// What happens on a channel and has a callback.
#[derive(Debug, Drop, PartialEq, Eq)]
pub enum Happening {
    /// The peer confirmed an open of this side (RFC 4254 section 5.1).
    Confirmed {
        /// How many bytes of data one message to the peer may have.
        max_packet_size: u32,
        /// How many bytes of data the peer takes at first.
        window_size: u32,
    },
    /// Data came (RFC 4254 section 5.2).
    Data {
        /// The bytes, in order.
        bytes: Bytes,
    },
    /// Data of another type came (RFC 4254 section 5.2).
    ExtendedData {
        /// The data type code; 1 is standard error.
        code: u32,
        /// The bytes, in order.
        bytes: Bytes,
    },
    /// The peer sends no more data (RFC 4254 section 5.3).
    Eof,
    /// The peer closed the channel (RFC 4254 section 5.3).
    Close,
    /// The peer lets more data through (RFC 4254 section 5.2).
    WindowAdjusted {
        /// How many bytes may still be sent.
        new_size: u32,
    },
    /// A terminal is asked for (RFC 4254 section 6.2).
    PtyRequest {
        /// The terminal's type, as `vt100`.
        term: Text,
        /// Its width in characters.
        col_width: u32,
        /// Its height in rows.
        row_height: u32,
        /// Its width in pixels.
        pix_width: u32,
        /// Its height in pixels.
        pix_height: u32,
        /// Its modes, in order.
        modes: Modes,
    },
    /// X11 is to be forwarded (RFC 4254 section 6.3.1).
    X11Request {
        /// Whether for one connection alone.
        single_connection: bool,
        /// How X11 authenticates.
        x11_auth_protocol: Text,
        /// What it authenticates with.
        x11_auth_cookie: Text,
        /// The screen.
        x11_screen_number: u32,
    },
    /// A variable of the environment is set (RFC 4254 section 6.4).
    EnvRequest {
        /// Its name.
        variable_name: Text,
        /// Its value.
        variable_value: Text,
    },
    /// The user's shell is asked for (RFC 4254 section 6.5).
    ShellRequest,
    /// A program is to be run (RFC 4254 section 6.5).
    ExecRequest {
        /// The program and its arguments.
        bytes: Bytes,
    },
    /// A subsystem is asked for (RFC 4254 section 6.5).
    SubsystemRequest {
        /// Its name, as `sftp`.
        name: Text,
    },
    /// The terminal has another size (RFC 4254 section 6.7).
    WindowChangeRequest {
        /// Its width in characters.
        col_width: u32,
        /// Its height in rows.
        row_height: u32,
        /// Its width in pixels.
        pix_width: u32,
        /// Its height in pixels.
        pix_height: u32,
    },
    /// The program is sent a signal (RFC 4254 section 6.9).
    Signal {
        /// The signal.
        signal: Sig,
    },
}

/// What a callback is told that is lent commands, and answers nothing else than an error.
#[derive(Debug, Drop, PartialEq, Eq)]
pub enum Lent {
    /// The user is authenticated (RFC 4252 section 5.1).
    Succeeded,
    /// The peer opens a channel of this type, which has this number on this side (RFC 4254 section
    /// 5.1).
    Opens(ChannelId, OpenType),
    /// This happened on the channel of this number.
    Happened(ChannelId, Happening),
}

/// What a callback is asked that is lent commands, and answers whether it is granted.
#[derive(Debug, Drop, PartialEq, Eq)]
pub enum Judged {
    /// That the peer's agent may be reached (OpenSSH's `auth-agent-req@openssh.com`).
    AgentRequest {
        /// This side's number of the channel.
        channel: ChannelId,
    },
    /// That connections to an address are forwarded no longer (RFC 4254 section 7.1).
    CancelTcpipForward {
        /// The address.
        address: Text,
        /// The port.
        port: u32,
    },
    /// That connections to a socket are forwarded (OpenSSH PROTOCOL section 2.4).
    StreamlocalForward {
        /// The socket's path.
        socket_path: Text,
    },
    /// That they are forwarded no longer (OpenSSH PROTOCOL section 2.4).
    CancelStreamlocalForward {
        /// The socket's path.
        socket_path: Text,
    },
}

/// One question of a session: to its handler, or of a key exchange. Whoever keeps these has kept
/// what was asked, without the answers.
#[derive(Debug, Drop)]
pub enum Question {
    /// For the banner that is shown before authentication (RFC 4252 section 5.4).
    Banner,
    /// Whether a user is let in.
    Admits(Admission),
    /// That this came, with leave to record commands.
    Lends(Lent),
    /// Whether this is granted, with leave to record commands.
    Judges(Judged),
    /// Whether connections to an address are forwarded, and which port is listened at, with leave
    /// to record commands (RFC 4254 section 7.1).
    Listens {
        /// The address.
        address: Text,
        /// The port that the peer named; 0 leaves it to this side.
        port: u32,
    },
    /// How large the window of a channel is from now on (RFC 4254 section 5.2).
    Adjusts {
        /// This side's number of the channel.
        channel: ChannelId,
        /// The window that it was just filled up to, in bytes.
        current: u32,
    },
    /// That this came of a command that a callback recorded.
    Done {
        /// Its place among the commands of that callback, from 0.
        place: usize,
        /// What came of it.
        outcome: CommandOutcome,
    },
    /// An exchange of keys, for its first payload (RFC 4253 section 7.1).
    Begins,
    /// An exchange of keys, for what follows on a payload of the peer (RFC 4253 section 7).
    Steps {
        /// The payload.
        payload: Bytes,
    },
}
