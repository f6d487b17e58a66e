// The exchange of keys of a script, which is without cryptography.
ghost use Rattle.std.specs.Prelude.{◌≡◌, [], false};
ghost use Rattle.ssh_players.specs.Exchanged.{IsExchanged, left_after};

use bytes::Bytes;
use ssh_link::{Kex, KexFault, KexStep, PlainKex, PlainKexError};
use std::alloc::Global;

/// Exchanges keys as `PlainKex` does. Each answer follows from the calls before it.
#[derive(Drop)]
pub struct ScriptKex {
    /// What exchanges, and tells its calls.
    pub plain: PlainKex,
    ghost exchanged: { IsExchanged false plain.calls },
    ghost left: { left_after false plain.calls ≡ plain.both },
}

impl ScriptKex {
    /// An exchange that was not called yet; whether this side can begin one by itself.
    pub fn new(alloc: Global, repeatable: bool) -> ScriptKex
        ensures calls { result.plain.calls ≡ [] }
        ensures repeatable { result.plain.repeatable ≡ repeatable }
    {
        ScriptKex {
            plain: PlainKex::new(alloc, repeatable),
        }
    }
}

impl Kex for ScriptKex {
    ghost use Rattle.std.specs.Prelude.{Some};

    type Error = PlainKexError;

    ghost steps = { λ kex. Some kex.plain.calls };

    ghost repeats = { λ kex. kex.plain.repeatable };

    fn repeatable(&self) -> bool {
        self.plain.repeatable()
    }

    fn begin(&mut self) -> Result<Bytes, KexFault<PlainKexError>> {
        self.plain.begin()
    }

    fn step(&mut self, payload: &[u8]) -> Result<KexStep, KexFault<PlainKexError>> {
        self.plain.step(payload)
    }
}
