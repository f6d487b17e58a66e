// The peer of a session that several threads share.
ghost use Rattle.std.specs.Prelude.{◌≡◌, ◌≤◌, IsErrOf};
ghost use Rattle.ssh_link.specs.declared.link.LinkFault.TheVariants.{Failed};
ghost use Rattle.ssh_link.specs.Faults.{Rose};

use ssh_hub_link::Feed;
use ssh_link::LinkFault;

/// A feed that is told how many channels the session is to have.
pub trait Peer: Feed {
    /// The session has so many channels, whose numbers begin at 2. It gives no input and takes no
    /// frame. `Failed` comes only where the count of faults rose.
    fn channels(&mut self, n: u32) -> Result<(), LinkFault>
        ensures inputs { Self.Feed.inputs self.new ≡ Self.Feed.inputs self.old }
        ensures frames { Self.Feed.frames self.new ≡ Self.Feed.frames self.old }
        ensures cause { IsErrOf result Failed
            → Rose (Self.Feed.faults self.old) (Self.Feed.faults self.new) }
        ensures later { Self.Feed.faults self.old ≤ Self.Feed.faults self.new };
}
