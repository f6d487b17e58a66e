// A seat of a hub with the hub's lock: it makes the calls of a handle or of a half.
ghost use Rattle.std.specs.Prelude.{◌≡◌};
ghost use Rattle.std.specs.Arc.{arc_value};
ghost use Rattle.ssh_hub.specs.Words.{IsSeatOf};

use ssh_hub::{HubLock, Seat};
use std::sync::Arc;

mod halves;
mod sends;
mod tries;
mod waits;
mod writes;

/// A hub that is shared, and a seat of it.
#[derive(Drop)]
pub struct Caller {
    pub lock: Arc<HubLock>,
    pub seat: Seat,
    ghost fits: { IsSeatOf (arc_value lock) seat },
}
