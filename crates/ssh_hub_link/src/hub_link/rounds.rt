// The rounds of a `next`.
ghost use Rattle.std.specs.Prelude.{◌≡◌, ◌≤◌, ◌||◌, None, true, false, IsErrOf};
ghost use Rattle.ssh_link.specs.declared.link.LinkFault.TheVariants.{Failed};
ghost use Rattle.ssh_link.specs.Faults.{Rose};
ghost use Rattle.ssh_hub.specs.Words.{view_of};
ghost use Rattle.ssh_hub_link.specs.Given.{kind_of};
ghost use Rattle.ssh_hub_link.specs.Linked.{IsSameLink, IsTold};
ghost use Rattle.ssh_hub_link.specs.Rounds.{TakesFirst, Polled, Waited, Round};

use super::HubLink;
use crate::entries::{Found, taken};
use crate::feed::Feed;
use ssh_hub::Taken;
use ssh_link::{Input, InputKind};
use std::sync::Wait;

impl<R: Wait + Clone + Drop, F: Feed> HubLink<R, F> {
    // One round: what it gives, or none where it found nothing and another has to be made.
    pub(super) fn round(&mut self, commands: bool, replies: bool) -> Found
        requires { self.old.lost ≡ None }
        ensures same { IsSameLink self.old self.new }
        ensures told { IsTold self.old self.new commands replies result }
        ensures round { Round F.polls F.waits commands replies (view_of self.old.seat)
            self.old.feed result (view_of self.new.seat) self.new.feed }
        ensures cause { IsErrOf result Failed
            → Rose (F.faults self.old.feed) (F.faults self.new.feed) }
        ensures later { F.faults self.old.feed ≤ F.faults self.new.feed }
    {
        match self.take_reply(commands, replies) {
            Ok(None) => {}
            Ok(Some(input)) => return Ok(Some(input)),
            Err(fault) => return Err(fault),
        }
        let place = self.seat.place();
        match self.poll_feed(commands, replies) {
            Ok(None) => {}
            Ok(Some(input)) => return Ok(Some(input)),
            Err(fault) => return Err(fault),
        }
        match self.take_either(commands, replies) {
            Ok(None) => {}
            Ok(Some(input)) => return Ok(Some(input)),
            Err(fault) => return Err(fault),
        }
        if (commands || replies) && self.feed.nudged() {
            self.pause(replies, place);
            return Ok(None);
        }
        self.wait_feed(commands, replies)
    }

    // Asks the hub for a reply, where replies are asked for.
    fn take_reply(&mut self, commands: bool, replies: bool) -> Found
        requires { self.old.lost ≡ None }
        ensures same { IsSameLink self.old self.new × (self.new.feed ≡ self.old.feed) }
        ensures told { IsTold self.old self.new commands replies result }
        ensures took { TakesFirst replies true false (view_of self.old.seat) result
            (view_of self.new.seat) }
        ensures memory { IsErrOf result Failed → ⊥ }
    {
        if !replies {
            return Ok(None);
        }
        self.take(commands, replies, true, false)
    }

    // Asks the hub for what is asked for.
    fn take_either(&mut self, commands: bool, replies: bool) -> Found
        requires { self.old.lost ≡ None }
        ensures same { IsSameLink self.old self.new × (self.new.feed ≡ self.old.feed) }
        ensures told { IsTold self.old self.new commands replies result }
        ensures took { TakesFirst (commands || replies) replies commands (view_of self.old.seat)
            result (view_of self.new.seat) }
        ensures memory { IsErrOf result Failed → ⊥ }
    {
        if !(commands || replies) {
            return Ok(None);
        }
        self.take(commands, replies, replies, commands)
    }

    // Takes the first reply out of the hub, or else the first command, where it is to ask for them.
    fn take(
        &mut self,
        commands: bool,
        replies: bool,
        asks_replies: bool,
        asks_commands: bool,
    ) -> Found
        requires { self.old.lost ≡ None }
        ensures same { IsSameLink self.old self.new × (self.new.feed ≡ self.old.feed) }
        ensures told { IsTold self.old self.new commands replies result }
        ensures took { TakesFirst true asks_replies asks_commands (view_of self.old.seat) result
            (view_of self.new.seat) }
        ensures memory { IsErrOf result Failed → ⊥ }
    {
        let Some(item) = self
            .lock
            .take(&self.rt, &mut self.seat, asks_replies, asks_commands)
        else {
            return Ok(None);
        };
        let input = input_of(item, self.moment);
        taken(&mut self.trace, &mut self.lost, commands, replies, input)
    }

    // Asks the feed for what it has.
    fn poll_feed(&mut self, commands: bool, replies: bool) -> Found
        requires { self.old.lost ≡ None }
        ensures same { IsSameLink self.old self.new × (self.new.seat ≡ self.old.seat) }
        ensures told { IsTold self.old self.new commands replies result }
        ensures polled { Polled F.polls self.old.feed result self.new.feed }
        ensures cause { IsErrOf result Failed
            → Rose (F.faults self.old.feed) (F.faults self.new.feed) }
        ensures later { F.faults self.old.feed ≤ F.faults self.new.feed }
    {
        match self.feed.poll() {
            Ok(Some(input)) => {
                self.moment = input.moment;
                taken(&mut self.trace, &mut self.lost, commands, replies, input)
            }
            Ok(None) => Ok(None),
            Err(fault) => Err(fault),
        }
    }

    // Waits for the feed.
    fn wait_feed(&mut self, commands: bool, replies: bool) -> Found
        requires { self.old.lost ≡ None }
        ensures same { IsSameLink self.old self.new × (self.new.seat ≡ self.old.seat) }
        ensures told { IsTold self.old self.new commands replies result }
        ensures waited { Waited F.waits self.old.feed result self.new.feed }
        ensures cause { IsErrOf result Failed
            → Rose (F.faults self.old.feed) (F.faults self.new.feed) }
        ensures later { F.faults self.old.feed ≤ F.faults self.new.feed }
    {
        match self.feed.wait() {
            Ok(input) => {
                self.moment = input.moment;
                taken(&mut self.trace, &mut self.lost, commands, replies, input)
            }
            Err(fault) => Err(fault),
        }
    }

    // Waits until an event of another stands behind the first take of a round, which was at `place`
    // where there were two.
    fn pause(&self, has_two: bool, place: Option<u64>) {
        let Some(newest) = self.seat.place() else {
            return;
        };
        let is_alone = match place {
            Some(first) => !has_two || newest.saturating_sub(first) <= 1,
            None => true,
        };
        if is_alone {
            self.lock.pause(&self.rt, newest);
        }
    }
}

// What was taken out of the hub, as an input of this moment.
fn input_of(item: Taken, moment: u64) -> Input
    ensures { result.kind ≡ kind_of item }
{
    let kind = match item {
        Taken::Reply(ticket, answer) => InputKind::OpenReply(ticket, answer),
        Taken::Command(ticket, command) => InputKind::Command(ticket, command),
    };
    Input { moment, kind }
}
