// Two ends, and what is under way between them.
ghost use Rattle.std.specs.Prelude.{◌≡◌, ◌<◌, ◌++◌, ◌∷◌, [], IfOk, IfErr, OnOk};
ghost use Rattle.ssh_ends.specs.Ends as spec;
ghost use Rattle.ssh_ends.specs.Run.{actor};

use crate::post::Post;
use crate::{Delivered, EndError, EndEvent, Side};
use std::alloc::Global;
use std::marker::Model;

/// Two ends, each of which takes what the other writes, in order. An event happens to one of them.
///
/// After an error the two are not used further: it is want of memory, or a side has drawn all its
/// numbers of channels.
#[derive(Drop)]
pub struct Ends {
    a: Post,
    b: Post,
}

impl Model for Ends {
    ghost use Rattle.ssh_ends.specs.Ends.{Posts};

    ghost Value = { Posts };

    ghost view = { λ ends. record { a = ends.a; b = ends.b } };
}

impl Ends {
    /// Two ends without channels, each of which gives this window and takes this packet size.
    pub fn new(alloc: Global, window: u32, packet: u32) -> Ends
        requires { 0 < packet }
        ensures { spec.StandsAt window packet [] result }
    {
        Ends {
            a: Post::new(alloc, window, packet),
            b: Post::new(alloc, window, packet),
        }
    }

    /// An event: a side does this, and writes what it has to; or the other side takes the first
    /// message of it, and the data that this brings are the answer.
    ///
    /// While each side draws fewer than 2^32 - 1 numbers of channels, want of memory is the only
    /// error.
    pub fn event(&mut self, event: EndEvent) -> Result<Option<Delivered>, EndError>
        ensures happens { IfOk result (spec.Happens event self.old self.new) }
        ensures memory { IfErr result (spec.FailsFor event self.old) }
    {
        match event.actor() {
            Side::A => self.a.turn(&mut self.b, event),
            Side::B => self.b.turn(&mut self.a, event),
        }
    }

    /// Whether nothing is under way.
    pub fn is_quiet(&self) -> bool
        ensures { result ≡ spec.is_quiet self.now }
    {
        self.a.is_quiet() && self.b.is_quiet()
    }
}
