// What a session lends to a callback.
ghost use Rattle.std.specs.Prelude.{◌≡◌, []};

use ssh_channels::Encrypted;
use ssh_handler::{Commands, Config};
use std::alloc::Global;

/// A server that lends itself, as it is set up where it names nothing else, without channels.
#[derive(Drop)]
pub(crate) struct Lender {
    alloc: Global,
    table: Encrypted,
    pub(crate) config: Config,
}

impl Lender {
    pub(crate) fn new(alloc: Global) -> Lender {
        Lender {
            alloc,
            table: Encrypted::new(alloc),
            config: Config::standard(),
        }
    }

    /// Nothing is recorded yet.
    pub(crate) fn lend(&self) -> Commands<'_>
        ensures fresh { result.recorded ≡ [] }
    {
        Commands::new(
            self.alloc,
            &self.table,
            &self.config,
            b"SSH-2.0-test",
            true,
            true,
        )
    }

    /// The same, to a callback of this user.
    pub(crate) fn lend_to<'a>(&'a self, user: &'a str) -> Commands<'a>
        ensures fresh { result.recorded ≡ [] }
    {
        Commands::for_user(
            self.alloc,
            &self.table,
            &self.config,
            b"SSH-2.0-test",
            true,
            true,
            Some(user),
        )
    }
}
