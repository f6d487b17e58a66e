// Ticks, which come from whoever keeps the time.
ghost use Rattle.std.specs.Prelude.{◌≡◌};
ghost use Rattle.ssh_rules.specs.World.{World};
ghost use Rattle.ssh_rules.specs.Ticks.{keepalive_acts, ticked, is_too_many};
ghost use Rattle.ssh_serving.specs.Serve.{Refines, Turned, IsSameServer};

use crate::Server;
use ssh_handler::Config;
use ssh_messages::keepalive_payload;
use ssh_rules::{Outstanding, RunError};

/// Whether so many ticks without a sign of life are more than are allowed; 0 allows any number.
fn is_too_many(config: &Config, keepalives: u64) -> bool
    ensures { result ≡ is_too_many config.now keepalives }
{
    config.keepalive_max > 0 && keepalives > config.keepalive_max as u64
}

impl Server {
    /// A keepalive tick asks the peer for a sign of life. `KeepaliveTimeout` where the peer was not
    /// heard for more ticks than are allowed.
    pub fn keepalive_tick<E, F>(&mut self) -> Result<(), RunError<E, F>>
        ensures does { (w : World) → Refines self.old w →
            Turned (keepalive_acts w) w self.new result }
        ensures session { IsSameServer self.old self.new }
    {
        self.count_tick();
        if self.is_timed_out() {
            return Err(RunError::KeepaliveTimeout);
        }
        let payload = keepalive_payload(self.alloc)?;
        self.say(payload, Some(Outstanding::Keepalive), false)?;
        Ok(())
    }

    /// Whether the peer was not heard for more ticks than are allowed.
    fn is_timed_out(&self) -> bool
        ensures { (w : World) → Refines self.now w →
            result ≡ is_too_many w.settings.config w.keepalives }
    {
        is_too_many(&self.common.config, self.keepalives)
    }

    /// One more tick came since the peer was heard.
    fn count_tick(&mut self)
        ensures world { (w : World) → Refines self.old w → Refines self.new (ticked w) }
        ensures session { IsSameServer self.old self.new }
    {
        self.keepalives = self.keepalives.saturating_add(1);
    }
}
