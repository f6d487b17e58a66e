// A seat of a hub with what its user needs to leave.
ghost use Rattle.std.specs.Prelude.{◌≡◌, IfOk, IfErr};
ghost use Rattle.std.specs.Arc.{arc_value};
ghost use Rattle.ssh_hub.specs.Words.{IsSeatOf};
ghost use Rattle.ssh_handles.specs.Handles.{handle_hub};
ghost use Rattle.ssh_wire.specs.declared.error.WireError.TheVariants.{NoMemory};

use ssh_handles::Handle;
use ssh_hub::{HubLock, Seat};
use ssh_wire::{Disconnect, Text, WireError};
use std::alloc::Global;
use std::sync::{Arc, Wait};

/// A seat of a hub, and the words of the message by which its user ends the connection, for which
/// no memory is wanted then.
#[derive(Drop)]
pub struct Post {
    pub(crate) lock: Arc<HubLock>,
    pub(crate) seat: Seat,
    pub(crate) words: Words,
    ghost fits: { IsSeatOf (arc_value lock) seat },
}

/// What DISCONNECT says to the peer's user (RFC 4253 section 11.1).
#[derive(Drop)]
pub(crate) struct Words {
    description: Text,
    language: Text,
}

impl Words {
    // Asks for the end of the connection; nothing comes of it where the hub has ended.
    pub(crate) fn part<R: Wait>(self, rt: &R, handle: &mut Handle)
        ensures { handle_hub handle.new ≡ handle_hub handle.old }
    {
        let Words {
            description,
            language,
        } = self;
        let _ticket = handle.disconnect(rt, Disconnect::ByApplication, description, language);
    }
}

impl Post {
    /// A post with this seat. `NoMemory` is the only error.
    pub fn new(alloc: Global, lock: Arc<HubLock>, seat: Seat) -> Result<Post, WireError>
        requires { IsSeatOf (arc_value lock) seat }
        ensures lock { IfOk result (λ post. post.lock ≡ lock) }
        ensures seat { IfOk result (λ post. post.seat ≡ seat) }
        ensures memory { IfErr result (λ e. e ≡ NoMemory) }
    {
        let description = Text::new(alloc, "a writer failed")?;
        let language = Text::new(alloc, "")?;
        let words = Words {
            description,
            language,
        };
        Ok(Post { lock, seat, words })
    }

    /// Gives its seat back, which makes no call in this.
    pub fn into_seat(self) -> Seat
        ensures { result ≡ self.seat }
    {
        let Post { lock, seat, words } = self;
        drop(lock);
        drop(words);
        seat
    }

    /// Asks for the end of the connection, and gives the seat back.
    pub fn part<R: Wait>(self, rt: &R) -> Seat
        ensures { IsSeatOf (arc_value self.lock) result }
    {
        let Post { lock, seat, words } = self;
        let mut handle = Handle::new(lock, seat);
        words.part(rt, &mut handle);
        handle.into_seat()
    }
}
