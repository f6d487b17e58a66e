// How a server is set up.
ghost use Rattle.std.specs.Prelude.{◌≡◌};
ghost use Rattle.ssh_handler.specs.Settings.{standard_config};

use ssh_wire::{Limits, MethodSet};

/// How a server is set up.
#[derive(Clone, Copy)]
pub struct Config {
    /// The authentication methods that can continue at first.
    pub methods: MethodSet,
    /// How long a refusal of authentication is held, in milliseconds.
    pub auth_rejection_time: u64,
    /// How long the refusal of a first request by method none is held, in milliseconds; None
    /// holds it as any other.
    pub auth_rejection_time_initial: Option<u64>,
    /// After how many bytes keys are exchanged again. The time is for whoever builds the link, who
    /// gives the tick: a session measures none.
    pub limits: Limits,
    /// The window that each channel grants its peer, in bytes (RFC 4254 section 5.1). Where more
    /// than twice as many come between this side's KEXINIT and the peer's, the run ends.
    pub window_size: u32,
    /// The most bytes of data in one message that the peer is told this side takes (RFC 4254
    /// section 5.1). Of data that come in only the room counts.
    pub maximum_packet_size: u32,
    /// For whoever makes a hub: how many messages may wait for the user of a channel. A session
    /// does not use it.
    pub channel_buffer_size: usize,
    /// For whoever makes a hub: how many commands may wait for the session, which does not use it
    /// itself.
    pub event_buffer_size: usize,
    /// After how many rejections the next request or response is answered by a DISCONNECT; 0 sets
    /// no end.
    pub max_auth_attempts: usize,
    /// For whoever builds the link: after how many milliseconds without an input it is to give the
    /// inactivity tick, which ends the run; None for never. A session does not use it.
    pub inactivity_timeout: Option<u64>,
    /// For whoever builds the link: how many milliseconds it is to wait between keepalive ticks;
    /// None where it gives none. A session does not use it.
    pub keepalive_interval: Option<u64>,
    /// How many keepalive ticks may come while the peer is not heard: one more ends the run. 0 sets
    /// no end.
    pub keepalive_max: usize,
    /// For whoever builds the link: whether the socket sends small packets at once. A session does
    /// not use it.
    pub nodelay: bool,
}

impl Config {
    /// The set-up of a server that names nothing else. It takes no memory.
    pub fn standard() -> Config
        ensures { result ≡ standard_config }
    {
        Config {
            methods: MethodSet::server_supported(),
            auth_rejection_time: 1000,
            auth_rejection_time_initial: None,
            limits: Limits::standard(),
            window_size: 2_097_152,
            maximum_packet_size: 32_768,
            channel_buffer_size: 100,
            event_buffer_size: 10,
            max_auth_attempts: 10,
            inactivity_timeout: Some(600_000),
            keepalive_interval: None,
            keepalive_max: 3,
            nodelay: false,
        }
    }
}
