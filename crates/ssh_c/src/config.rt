// How a caller sets a server up.
use ssh_embed::{OpenRule, Rules};
use ssh_handler::Config;
use ssh_wire::{MethodKind, MethodSet};

/// How a server is set up: see `gidzork_config` in include/gidzork.h.
#[repr(C)]
#[derive(Clone, Copy)]
pub struct Setup {
    methods: u32,
    sessions: u32,
    direct_tcpip: u32,
    direct_streamlocal: u32,
    window_size: u32,
    maximum_packet_size: u32,
    max_auth_attempts: u32,
    keepalive_max: u32,
    auth_rejection_time: u64,
    auth_rejection_time_initial: u64,
    rekey_bytes: u64,
    repeatable: bool,
}

// The methods of these bits.
fn methods_of(bits: u32) -> MethodSet {
    let mut methods = MethodSet::empty();
    if bits & 1 != 0 {
        methods.push(MethodKind::None);
    }
    if bits & 2 != 0 {
        methods.push(MethodKind::Password);
    }
    if bits & 4 != 0 {
        methods.push(MethodKind::PublicKey);
    }
    if bits & 8 != 0 {
        methods.push(MethodKind::KeyboardInteractive);
    }
    methods
}

// The rule of this number; none where there is no such rule.
fn rule_of(number: u32) -> Option<OpenRule> {
    match number {
        0 => Some(OpenRule::Refuse),
        1 => Some(OpenRule::Accept),
        2 => Some(OpenRule::Keep),
        _ => None,
    }
}

impl Setup {
    /// The config of the session.
    pub(crate) fn config(&self) -> Config {
        let mut config = Config::standard();
        config.methods = methods_of(self.methods);
        config.window_size = self.window_size;
        config.maximum_packet_size = self.maximum_packet_size;
        config.max_auth_attempts = self.max_auth_attempts as usize;
        config.keepalive_max = self.keepalive_max as usize;
        config.auth_rejection_time = self.auth_rejection_time;
        config.auth_rejection_time_initial = Some(self.auth_rejection_time_initial);
        config.limits.rekey_write_limit = self.rekey_bytes;
        config.limits.rekey_read_limit = self.rekey_bytes;
        config
    }

    /// What becomes of opens; none where a number is that of no rule.
    pub(crate) fn rules(&self) -> Option<Rules> {
        Some(Rules {
            sessions: rule_of(self.sessions)?,
            direct_tcpip: rule_of(self.direct_tcpip)?,
            direct_streamlocal: rule_of(self.direct_streamlocal)?,
        })
    }

    /// Whether the transport begins an exchange of keys where the session asks for one.
    pub(crate) fn repeatable(&self) -> bool {
        self.repeatable
    }
}
