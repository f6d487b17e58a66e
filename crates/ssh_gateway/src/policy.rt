// Who may reach what.
ghost use Rattle.std.specs.Prelude.{◌≡◌, ℕ, List, [], ◌∷◌, ◌++◌, Bool, OnOk, IfErr, OnErr};
ghost use Rattle.ssh_wire.specs.declared.error.WireError.TheVariants.{NoMemory};
ghost use Rattle.ssh_gateway.specs.Allowed.{is_listed};

use ssh_wire::{Text, WireError};
use std::alloc::Global;
use std::marker::Model;

/// Which user may connect to which host. The answer depends on the four alone, so it is the same
/// each time.
pub trait Policy {
    /// Whether this user may connect to this host and port.
    ghost permits: { Self → (user : List ℕ) → (host : List ℕ) → (port : ℕ) → Bool };

    /// Whether this user may connect to this host and port. The host is what the peer wrote: a name
    /// or an address, in any spelling.
    fn allows(&self, user: &str, host: &str, port: u32) -> bool
        ensures { result ≡ permits self.now user.now host.now port };
}

/// A host that may be reached, and the port there.
#[derive(Drop)]
pub(crate) struct Reachable {
    pub(crate) host: Text,
    pub(crate) port: u32,
}

impl Reachable {
    fn is(&self, host: &str, port: u32) -> bool
        ensures { result ≡ is_listed host.now port (self.now ∷ []) }
    {
        self.port == port && self.host.as_str() == host
    }
}

/// Allows every user the same hosts. A clause sees the list.
#[derive(Drop)]
pub struct ListPolicy {
    hosts: Vec<Reachable>,
}

impl Model for ListPolicy {
    ghost use Rattle.std.specs.Prelude.{List};
    ghost use Rattle.ssh_gateway.specs.declared.policy.Reachable.{Reachable};

    ghost Value = { List Reachable };

    ghost view = { λ policy. policy.hosts.items };
}

impl ListPolicy {
    /// Nothing may be reached yet.
    pub fn new(alloc: Global) -> ListPolicy
        ensures { result ≡ [] }
    {
        ListPolicy {
            hosts: Vec::new(alloc),
        }
    }

    /// This host and port may be reached, too. `NoMemory` is the only error, and then nothing has
    /// changed.
    pub fn allow(&mut self, host: Text, port: u32) -> Result<(), WireError>
        ensures ok { OnOk result (self.new ≡ self.old
            ++ record { host = host; port = port } ∷ []) }
        ensures err { OnErr result (self.new ≡ self.old) }
        ensures memory { IfErr result (λ e. e ≡ NoMemory) }
    {
        self.hosts.push(Reachable { host, port })?;
        Ok(())
    }
}

impl Policy for ListPolicy {
    ghost use Rattle.ssh_gateway.specs.Allowed.{is_listed};

    ghost permits = { λ policy user host port. is_listed host port policy };

    fn allows(&self, _user: &str, host: &str, port: u32) -> bool {
        self.hosts.iter().any(|one| one.is(host, port))
    }
}
