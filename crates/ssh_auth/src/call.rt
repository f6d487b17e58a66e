// What a handler tells of a callback.
use crate::Auth;
use bytes::Bytes;
use ssh_keys::{Algorithm, Certificate, PublicKey};
use ssh_link::{CommandList, CommandOutcome};
use ssh_wire::{Blobs, ChannelId, Modes, Sig, Text};

/// One call of a callback of a handler: its arguments, what it answered, and the commands that it
/// recorded where it could.
#[derive(Drop)]
pub enum Call<E> {
    /// The banner was asked for.
    AuthenticationBanner {
        /// The banner, or none.
        answer: Result<Option<Text>, E>,
    },
    /// A user asked to be let in by method none.
    AuthNone {
        /// The user's name.
        user: Text,
        /// The verdict.
        answer: Result<Auth, E>,
    },
    /// A user asked to be let in by a password.
    AuthPassword {
        /// The user's name.
        user: Text,
        /// The password.
        password: Text,
        /// The verdict.
        answer: Result<Auth, E>,
    },
    /// A user offered a key.
    AuthPublickeyOffered {
        /// The user's name.
        user: Text,
        /// The key; for a certificate, the one that is certified.
        public_key: PublicKey,
        /// The algorithm by which it would sign.
        algorithm: Algorithm,
        /// Whether the key may sign.
        answer: Result<Auth, E>,
    },
    /// A user asked to be let in by a key whose signature was accepted.
    AuthPublickey {
        /// The user's name.
        user: Text,
        /// The key.
        public_key: PublicKey,
        /// The algorithm by which it signed.
        algorithm: Algorithm,
        /// The verdict.
        answer: Result<Auth, E>,
    },
    /// A user asked to be let in by a certificate whose key's signature was accepted.
    AuthOpensshCertificate {
        /// The user's name.
        user: Text,
        /// The certificate, which holds and is validly signed.
        certificate: Certificate,
        /// The verdict.
        answer: Result<Auth, E>,
    },
    /// A user asked to be let in by prompts, or responded to them.
    AuthKeyboardInteractive {
        /// The user's name.
        user: Text,
        /// The submethods that the user would like, joined by commas.
        submethods: Text,
        /// The responses to the last prompts, in order; none before the first prompts.
        response: Option<Blobs>,
        /// The verdict.
        answer: Result<Auth, E>,
    },
    /// The user was authenticated.
    AuthSucceeded {
        /// Whether the handler goes on.
        answer: Result<(), E>,
        /// What it asked of the session.
        commands: CommandList,
    },
    /// The peer closed the channel.
    ChannelClose {
        /// This side's number of the channel.
        channel: ChannelId,
        /// Whether the handler goes on.
        answer: Result<(), E>,
        /// What it asked of the session.
        commands: CommandList,
    },
    /// The peer sends no more data on the channel.
    ChannelEof {
        /// This side's number of the channel.
        channel: ChannelId,
        /// Whether the handler goes on.
        answer: Result<(), E>,
        /// What it asked of the session.
        commands: CommandList,
    },
    /// The peer opens a session channel.
    ChannelOpenSession {
        /// This side's number of the channel.
        channel: ChannelId,
        /// Whether the handler goes on.
        answer: Result<(), E>,
        /// What it asked of the session.
        commands: CommandList,
    },
    /// The peer opens a channel for a connection to its X server.
    ChannelOpenX11 {
        /// This side's number of the channel.
        channel: ChannelId,
        /// Where the connection comes from.
        originator_address: Text,
        /// The port there.
        originator_port: u32,
        /// Whether the handler goes on.
        answer: Result<(), E>,
        /// What it asked of the session.
        commands: CommandList,
    },
    /// The peer opens a channel to a host beyond this side.
    ChannelOpenDirectTcpip {
        /// This side's number of the channel.
        channel: ChannelId,
        /// The host to connect to.
        host_to_connect: Text,
        /// Its port.
        port_to_connect: u32,
        /// Where the connection comes from.
        originator_address: Text,
        /// The port there.
        originator_port: u32,
        /// Whether the handler goes on.
        answer: Result<(), E>,
        /// What it asked of the session.
        commands: CommandList,
    },
    /// The peer hands on a connection that came to a forwarded port.
    ChannelOpenForwardedTcpip {
        /// This side's number of the channel.
        channel: ChannelId,
        /// The address that was connected to.
        host_to_connect: Text,
        /// Its port.
        port_to_connect: u32,
        /// Where the connection comes from.
        originator_address: Text,
        /// The port there.
        originator_port: u32,
        /// Whether the handler goes on.
        answer: Result<(), E>,
        /// What it asked of the session.
        commands: CommandList,
    },
    /// The peer opens a channel to a socket at this side.
    ChannelOpenDirectStreamlocal {
        /// This side's number of the channel.
        channel: ChannelId,
        /// The socket's path.
        socket_path: Text,
        /// Whether the handler goes on.
        answer: Result<(), E>,
        /// What it asked of the session.
        commands: CommandList,
    },
    /// The peer confirmed an open of this side.
    ChannelOpenConfirmation {
        /// This side's number of the channel.
        id: ChannelId,
        /// How many bytes of data one message to the peer may have.
        max_packet_size: u32,
        /// How many bytes of data the peer takes at first.
        window_size: u32,
        /// Whether the handler goes on.
        answer: Result<(), E>,
        /// What it asked of the session.
        commands: CommandList,
    },
    /// Data came on the channel.
    Data {
        /// This side's number of the channel.
        channel: ChannelId,
        /// The bytes, in order.
        bytes: Bytes,
        /// Whether the handler goes on.
        answer: Result<(), E>,
        /// What it asked of the session.
        commands: CommandList,
    },
    /// Data of another type came on the channel.
    ExtendedData {
        /// This side's number of the channel.
        channel: ChannelId,
        /// The data type code; 1 is standard error.
        code: u32,
        /// The bytes, in order.
        bytes: Bytes,
        /// Whether the handler goes on.
        answer: Result<(), E>,
        /// What it asked of the session.
        commands: CommandList,
    },
    /// The peer lets more data through.
    WindowAdjusted {
        /// This side's number of the channel.
        channel: ChannelId,
        /// How many bytes may still be sent.
        new_size: u32,
        /// Whether the handler goes on.
        answer: Result<(), E>,
        /// What it asked of the session.
        commands: CommandList,
    },
    /// The window that this side grants the peer was filled up again.
    AdjustWindow {
        /// This side's number of the channel.
        channel: ChannelId,
        /// The window that it was filled up to, in bytes.
        current: u32,
        /// The window from now on, in bytes; 0 leaves it as it is.
        answer: Result<u32, E>,
    },
    /// The peer asks for a terminal.
    PtyRequest {
        /// This side's number of the channel.
        channel: ChannelId,
        /// The terminal's type, as `vt100`.
        term: Text,
        /// Its width in characters.
        col_width: u32,
        /// Its height in rows.
        row_height: u32,
        /// Its width in pixels.
        pix_width: u32,
        /// Its height in pixels.
        pix_height: u32,
        /// Its modes, in order.
        modes: Modes,
        /// Whether the handler goes on.
        answer: Result<(), E>,
        /// What it asked of the session.
        commands: CommandList,
    },
    /// The peer asks that X11 is forwarded to it.
    X11Request {
        /// This side's number of the channel.
        channel: ChannelId,
        /// Whether for one connection alone.
        single_connection: bool,
        /// How X11 authenticates.
        x11_auth_protocol: Text,
        /// What it authenticates with.
        x11_auth_cookie: Text,
        /// The screen.
        x11_screen_number: u32,
        /// Whether the handler goes on.
        answer: Result<(), E>,
        /// What it asked of the session.
        commands: CommandList,
    },
    /// The peer sets a variable of the environment.
    EnvRequest {
        /// This side's number of the channel.
        channel: ChannelId,
        /// Its name.
        variable_name: Text,
        /// Its value.
        variable_value: Text,
        /// Whether the handler goes on.
        answer: Result<(), E>,
        /// What it asked of the session.
        commands: CommandList,
    },
    /// The peer asks for the user's shell.
    ShellRequest {
        /// This side's number of the channel.
        channel: ChannelId,
        /// Whether the handler goes on.
        answer: Result<(), E>,
        /// What it asked of the session.
        commands: CommandList,
    },
    /// The peer asks that a program is run.
    ExecRequest {
        /// This side's number of the channel.
        channel: ChannelId,
        /// The program and its arguments.
        bytes: Bytes,
        /// Whether the handler goes on.
        answer: Result<(), E>,
        /// What it asked of the session.
        commands: CommandList,
    },
    /// The peer asks for a subsystem.
    SubsystemRequest {
        /// This side's number of the channel.
        channel: ChannelId,
        /// Its name, as `sftp`.
        name: Text,
        /// Whether the handler goes on.
        answer: Result<(), E>,
        /// What it asked of the session.
        commands: CommandList,
    },
    /// The peer's terminal has another size.
    WindowChangeRequest {
        /// This side's number of the channel.
        channel: ChannelId,
        /// Its width in characters.
        col_width: u32,
        /// Its height in rows.
        row_height: u32,
        /// Its width in pixels.
        pix_width: u32,
        /// Its height in pixels.
        pix_height: u32,
        /// Whether the handler goes on.
        answer: Result<(), E>,
        /// What it asked of the session.
        commands: CommandList,
    },
    /// The peer asks that its agent may be reached.
    AgentRequest {
        /// This side's number of the channel.
        channel: ChannelId,
        /// Whether it is granted.
        answer: Result<bool, E>,
        /// What it asked of the session.
        commands: CommandList,
    },
    /// The peer sends the program a signal.
    Signal {
        /// This side's number of the channel.
        channel: ChannelId,
        /// The signal.
        signal: Sig,
        /// Whether the handler goes on.
        answer: Result<(), E>,
        /// What it asked of the session.
        commands: CommandList,
    },
    /// The peer asks that connections to an address are forwarded to it.
    TcpipForward {
        /// The address to listen at.
        address: Text,
        /// The port that the peer named; 0 leaves it to this side.
        port: u32,
        /// The port after the call: the one that the handler listens at.
        port_after: u32,
        /// Whether it is granted.
        answer: Result<bool, E>,
        /// What it asked of the session.
        commands: CommandList,
    },
    /// The peer asks that they are forwarded no longer.
    CancelTcpipForward {
        /// The address.
        address: Text,
        /// The port.
        port: u32,
        /// Whether it is granted.
        answer: Result<bool, E>,
        /// What it asked of the session.
        commands: CommandList,
    },
    /// The peer asks that connections to a socket are forwarded to it.
    StreamlocalForward {
        /// The socket's path.
        socket_path: Text,
        /// Whether it is granted.
        answer: Result<bool, E>,
        /// What it asked of the session.
        commands: CommandList,
    },
    /// The peer asks that they are forwarded no longer.
    CancelStreamlocalForward {
        /// The socket's path.
        socket_path: Text,
        /// Whether it is granted.
        answer: Result<bool, E>,
        /// What it asked of the session.
        commands: CommandList,
    },
    /// A command that a callback recorded opens a channel, or was refused.
    CommandDone {
        /// Its place among the commands of that callback, from 0.
        place: usize,
        /// What came of it.
        outcome: CommandOutcome,
        /// Whether the handler goes on.
        answer: Result<(), E>,
    },
}
