// The law of two ends.
ghost use Rattle.ssh_ends.specs.Run.{Holds, HoldsOfAll};

/// After each list of events, on each channel that was opened: what one side delivered is the first
/// part of what the other accepted; while neither wrote a CLOSE, it, what is under way and what waits
/// are all of that; and data that come are never larger than the room for them.
pub fn two_ends()
    ensures holds { HoldsOfAll Holds }
{}
