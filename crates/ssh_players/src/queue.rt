// A list that is used up from its front.
ghost use Rattle.std.specs.Prelude.{◌≡◌, drop};
ghost use Rattle.ssh_players.specs.Queue.{rest};

/// The place behind the first of what is left from this place on.
#[tactic(auto, using(crate::proofs::Queues::rest_drop, crate::proofs::Queues::rest_beyond))]
pub(crate) fn place_after<T>(items: &Vec<T>, next: usize) -> usize
    ensures { drop result items.now.items ≡ rest (drop next items.now.items) }
{
    if next < items.len() { next + 1 } else { next }
}
