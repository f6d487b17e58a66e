// A feed in memory that does as planned.
ghost use Rattle.std.specs.Prelude.{◌≡◌, None};
ghost use Rattle.ssh_hub_link.specs.Feeds.{IsOfFeed};

use crate::scene::fails;
use bytes::Bytes;
use ssh_hub_link::Feed;
use ssh_link::{Frame, Input, InputKind, LinkFault};

// What a call of the feed finds.
#[derive(Clone, Copy)]
pub enum Step {
    Payload(&'static [u8]),
    // The payload that answers a message of this number: while another was heard last, nothing is
    // there.
    Answer(u8, &'static [u8]),
    Keepalive,
    End,
    // Nothing is there, and whoever waits goes on to the next step.
    Nothing,
    Fails,
}

// A feed with these steps, one for each `poll`; behind the last of them it has nothing, and whoever
// waits gets the end. It fails where a step says so, and takes `room` frames and then fails.
#[derive(Drop)]
pub struct PlannedFeed {
    pub steps: &'static [Step],
    pub next: usize,
    pub room: u64,
    pub is_nudged: bool,
    pub polls: u64,
    pub waits: u64,
    pub faults: u64,
    // The number of the newest message that was sent.
    pub heard: u8,
}

impl PlannedFeed {
    pub fn new(steps: &'static [Step], room: u64, is_nudged: bool) -> PlannedFeed {
        PlannedFeed {
            steps,
            next: 0,
            room,
            is_nudged,
            polls: 0,
            waits: 0,
            faults: 0,
            heard: 0,
        }
    }

    fn step(&mut self) -> Option<Step>
        ensures { self.new.faults ≡ self.old.faults }
    {
        let step = self.steps.get(self.next).copied();
        match step {
            Some(Step::Answer(message, _)) if message != self.heard => Some(Step::Nothing),
            _ => {
                self.next = self.next.saturating_add(1);
                step
            }
        }
    }
}

impl Feed for PlannedFeed {
    ghost inputs = { λ _. None };

    ghost frames = { λ _. None };

    ghost faults = { λ f. f.faults };

    ghost identity = { λ _. 0 };

    ghost polls = { λ _ _ _. Unit {0} };

    ghost waits = { λ _ _ _. Unit {0} };

    fn poll(&mut self) -> Result<Option<Input>, LinkFault> {
        self.polls = self.polls.saturating_add(1);
        let step = self.step().unwrap_or(Step::Nothing);
        if matches!(step, Step::Nothing) {
            return Ok(None);
        }
        if matches!(step, Step::Fails) && fails(&mut self.faults) {
            return Err(LinkFault::Failed);
        }
        Ok(Some(input_of(step, self.polls)))
    }

    fn wait(&mut self) -> Result<Input, LinkFault> {
        self.waits = self.waits.saturating_add(1);
        let step = self.step().unwrap_or(Step::End);
        if matches!(step, Step::Fails) && fails(&mut self.faults) {
            return Err(LinkFault::Failed);
        }
        Ok(input_of(step, self.polls))
    }

    fn send(&mut self, frame: Frame) -> Result<(), LinkFault> {
        self.heard = frame.head().first().copied().unwrap_or(0);
        drop(frame);
        if self.room == 0 && fails(&mut self.faults) {
            return Err(LinkFault::Failed);
        }
        self.room = self.room.saturating_sub(1);
        Ok(())
    }

    fn nudged(&self) -> bool {
        self.is_nudged
    }
}

fn input_of(step: Step, moment: u64) -> Input
    ensures { IsOfFeed result.kind }
{
    let kind = match step {
        Step::Payload(bytes) | Step::Answer(_, bytes) => {
            InputKind::Payload(Bytes::from_static(bytes))
        }
        Step::Keepalive => InputKind::KeepaliveTick,
        _ => InputKind::End,
    };
    Input { moment, kind }
}
