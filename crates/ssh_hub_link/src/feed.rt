// Where a hub's link has its payloads, ticks and end from, and where its frames go to.
ghost use Rattle.std.specs.Prelude.{◌≡◌, ◌≤◌, ℕ, List, Option, None, IfOk, IfSome, OnOk, OnErr};
ghost use Rattle.std.specs.Prelude.{IsErrOf};
ghost use Rattle.std.specs.Option.{option_to_list};
ghost use Rattle.ssh_link.specs.declared.frame.Input.{Input};
ghost use Rattle.ssh_link.specs.declared.link.LinkFault.TheVariants.{Failed};
ghost use Rattle.ssh_link.specs.Frames.{Frame};
ghost use Rattle.ssh_link.specs.Told.{Adds, AddsOne, AddsNothing};
ghost use Rattle.ssh_link.specs.Faults.{Rose};
ghost use Rattle.ssh_hub_link.specs.Feeds.{IsOfFeed};

use ssh_link::{Frame, Input, LinkFault};

/// The outside of a session but for its commands and its replies to opens: payloads, ticks and the
/// end come from it, and frames go to it. A feed that tells goes on telling. `Failed` comes only
/// where its count of faults rose.
pub trait Feed {
    /// The inputs that it gave, in order, where it tells them.
    ghost inputs: { Self → Option (List Input) };

    /// The frames that it took, in order, where it tells them.
    ghost frames: { Self → Option (List Frame) };

    /// How often the outside has failed.
    ghost faults: { Self → ℕ };

    /// Which feed it is, where that can be told: a call leaves it.
    ghost identity: { Self → ℕ };

    /// What a `poll` that was finished may answer, and what it leaves.
    ghost polls: { Self → Option Input → Self → Type 0 };

    /// What a `wait` that was finished may answer, and what it leaves.
    ghost waits: { Self → Input → Self → Type 0 };

    /// The next input, where there is one now.
    fn poll(&mut self) -> Result<Option<Input>, LinkFault>
        ensures polled { IfOk result (λ o. polls self.old o self.new) }
        ensures given { IfOk result (λ o. Adds (inputs self.old) (inputs self.new)
            (option_to_list o)) }
        ensures fed { IfOk result (λ o. IfSome o (λ input. IsOfFeed input.kind)) }
        ensures err { OnErr result (AddsNothing (inputs self.old) (inputs self.new)) }
        ensures frames { frames self.new ≡ frames self.old }
        ensures identity { identity self.new ≡ identity self.old }
        ensures cause { IsErrOf result Failed → Rose (faults self.old) (faults self.new) }
        ensures later { faults self.old ≤ faults self.new };

    /// The next input, for which it may wait.
    fn wait(&mut self) -> Result<Input, LinkFault>
        ensures waited { IfOk result (λ input. waits self.old input self.new) }
        ensures given { IfOk result (λ input. AddsOne (inputs self.old) (inputs self.new) input) }
        ensures fed { IfOk result (λ input. IsOfFeed input.kind) }
        ensures err { OnErr result (AddsNothing (inputs self.old) (inputs self.new)) }
        ensures frames { frames self.new ≡ frames self.old }
        ensures identity { identity self.new ≡ identity self.old }
        ensures cause { IsErrOf result Failed → Rose (faults self.old) (faults self.new) }
        ensures later { faults self.old ≤ faults self.new };

    /// Takes a frame, for the peer.
    fn send(&mut self, frame: Frame) -> Result<(), LinkFault>
        ensures sent { OnOk result (AddsOne (frames self.old) (frames self.new) frame) }
        ensures err { OnErr result (AddsNothing (frames self.old) (frames self.new)) }
        ensures inputs { inputs self.new ≡ inputs self.old }
        ensures identity { identity self.new ≡ identity self.old }
        ensures cause { IsErrOf result Failed → Rose (faults self.old) (faults self.new) }
        ensures later { faults self.old ≤ faults self.new };

    /// Whether, after a `poll` that had nothing, no input comes to the feed but by a call of this
    /// session, or from a thread that makes a `nudge` of the hub afterwards.
    fn nudged(&self) -> bool;
}

/// A feed that is lent is a feed.
impl<F: Feed> Feed for &mut F {
    ghost inputs = { λ f. F.inputs f.now };

    ghost frames = { λ f. F.frames f.now };

    ghost faults = { λ f. F.faults f.now };

    ghost identity = { λ f. f.ghost_name };

    ghost polls = { λ f o g. F.polls f.now o g.now };

    ghost waits = { λ f input g. F.waits f.now input g.now };

    fn poll(&mut self) -> Result<Option<Input>, LinkFault> {
        (**self).poll()
    }

    fn wait(&mut self) -> Result<Input, LinkFault> {
        (**self).wait()
    }

    fn send(&mut self, frame: Frame) -> Result<(), LinkFault> {
        (**self).send(frame)
    }

    fn nudged(&self) -> bool {
        (**self).nudged()
    }
}
