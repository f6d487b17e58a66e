// Peers that do otherwise than the program's own.
ghost use Rattle.std.specs.Prelude.{None};

use crate::meeting::Flags;
use crate::scene::fails;
use ssh_hub_link::Feed;
use ssh_link::{Frame, Input, InputKind, LinkFault};
use ssh_threads::{GrantingPeer, Peer};
use std::alloc::Global;

// Where the peer does otherwise.
#[derive(Clone, Copy)]
pub enum Odd<'a> {
    // It is gone where it would let more through.
    Leaves,
    // It takes no frame after so many.
    Takes(u64),
    // It does not want channels.
    WantsNone,
    // It meets a writer behind two opens, and fails where none comes.
    Meets(&'a Flags),
}

// The program's peer, but for this. It counts what it gave, took and failed.
#[derive(Drop)]
pub struct OddPeer<'a> {
    inner: GrantingPeer,
    odd: Odd<'a>,
    given: u64,
    taken: u64,
    faults: u64,
}

impl<'a> OddPeer<'a> {
    pub fn new(alloc: Global, odd: Odd<'a>) -> OddPeer<'a> {
        OddPeer {
            inner: GrantingPeer::new(alloc),
            odd,
            given: 0,
            taken: 0,
            faults: 0,
        }
    }

    // Whether it has to fail before its next input: the writer whom it is to meet did not come.
    fn is_alone(&self) -> bool {
        match self.odd {
            Odd::Meets(flags) => self.given == 4 && !flags.peer_meets(),
            _ => false,
        }
    }

    // Whether it is gone behind so many inputs: service, user and one open.
    fn is_gone(&self) -> bool {
        matches!(self.odd, Odd::Leaves) && self.given > 3
    }
}

impl<'a> Feed for OddPeer<'a> {
    ghost inputs = { λ _. None };

    ghost frames = { λ _. None };

    ghost faults = { λ p. p.faults };

    ghost identity = { λ _. 0 };

    ghost polls = { λ _ _ _. Unit {0} };

    ghost waits = { λ _ _ _. Unit {0} };

    fn poll(&mut self) -> Result<Option<Input>, LinkFault> {
        if self.is_alone() && fails(&mut self.faults) {
            return Err(LinkFault::Failed);
        }
        let input = match self.inner.poll() {
            Ok(Some(input)) => input,
            Ok(None) => return Ok(None),
            Err(_) => return Err(LinkFault::NoMemory),
        };
        self.given = self.given.saturating_add(1);
        if self.is_gone() {
            let moment = input.moment;
            drop(input);
            return Ok(Some(Input {
                moment,
                kind: InputKind::End,
            }));
        }
        Ok(Some(input))
    }

    fn wait(&mut self) -> Result<Input, LinkFault> {
        match self.inner.wait() {
            Ok(input) => Ok(input),
            Err(_) => Err(LinkFault::NoMemory),
        }
    }

    fn send(&mut self, frame: Frame) -> Result<(), LinkFault> {
        let has_room = match self.odd {
            Odd::Takes(most) => self.taken < most,
            _ => true,
        };
        if !has_room && fails(&mut self.faults) {
            drop(frame);
            return Err(LinkFault::Failed);
        }
        self.taken = self.taken.saturating_add(1);
        match self.inner.send(frame) {
            Ok(()) => Ok(()),
            Err(_) => Err(LinkFault::NoMemory),
        }
    }

    fn nudged(&self) -> bool {
        self.inner.nudged()
    }
}

impl<'a> Peer for OddPeer<'a> {
    fn channels(&mut self, n: u32) -> Result<(), LinkFault> {
        if matches!(self.odd, Odd::WantsNone) && fails(&mut self.faults) {
            return Err(LinkFault::Failed);
        }
        match self.inner.channels(n) {
            Ok(()) => Ok(()),
            Err(_) => Err(LinkFault::NoMemory),
        }
    }
}
