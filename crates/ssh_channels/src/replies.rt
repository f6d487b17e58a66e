// The replies that the peer's requests on a channel want, in the order of the requests.
ghost use Rattle.std.specs.Prelude.{◌≡◌, ◌<◌, ◌++◌, map, length, get_or, true, false};
ghost use Rattle.std.specs.Prelude.{Bool, IfOk, IfErr, IfSome, IfNone, OnOk, OnErr};
ghost use Rattle.ssh_channels.specs.declared.error.TableError.TheVariants.{NoMemory};
ghost use Rattle.ssh_channels.specs.declared.replies.Reply.TheVariants.{Owed, Settled};
ghost use Rattle.ssh_channels.specs.Layout as layout;
ghost use Rattle.ssh_channels.specs.Replies as replies;

use crate::TableError;
use crate::frames::{Recipient, reply_frame};
use ssh_link::Frame;
use std::alloc::Global;
use std::collections::VecDeque;
use std::marker::Model;

/// A reply that a request wants (RFC 4254 section 5.4).
#[derive(Clone, Copy, Debug, PartialEq, Eq)]
pub enum Reply {
    /// Nobody has said yet what it is.
    Owed,
    /// It is CHANNEL_SUCCESS where this is true, and else CHANNEL_FAILURE.
    Settled(bool),
}

/// The replies that requests on a channel want. A settled one goes out once none before it is owed,
/// so the first of those that did not go out is owed.
#[derive(Drop)]
pub(crate) struct Replies {
    count: u64,
    unsent: VecDeque<Reply>,
}

impl Model for Replies {
    ghost use Rattle.std.specs.Prelude.{◌≡◌, ◌≤◌, length, []};
    ghost use Rattle.ssh_channels.specs.Replies.{Wanted, ready};

    ghost Value = { Wanted };

    ghost view = { λ r. record { count = r.count; unsent = r.unsent.items } };

    ghost invariant = { λ r. (length r.unsent.items ≤ r.count) × (ready r.unsent.items ≡ []) };
}

/// Stages the replies that are ready, whose frames go behind the others. Where there is no memory,
/// none is staged.
fn stage_ready(
    alloc: Global,
    to: Recipient,
    unsent: &VecDeque<Reply>,
    staged: &mut VecDeque<Frame>,
) -> Result<(), TableError>
    ensures staged { OnOk result (staged.new.items
        ≡ staged.old.items ++ map (layout.reply_frame to.own.0 to.peer)
        (replies.ready unsent.now.items)) }
    ensures kept { OnErr result (staged.new.items ≡ staged.old.items) }
    ensures memory { IfErr result (λ e. e ≡ NoMemory) }
{
    let mut frames = ready_frames(alloc, to, unsent)?;
    staged.append(&mut frames)?;
    Ok(())
}

/// The frames of the replies that are ready.
fn ready_frames(
    alloc: Global,
    to: Recipient,
    unsent: &VecDeque<Reply>,
) -> Result<VecDeque<Frame>, TableError>
    ensures ok { IfOk result (λ frames. frames.items
        ≡ map (layout.reply_frame to.own.0 to.peer) (replies.ready unsent.now.items)) }
    ensures memory { IfErr result (λ e. e ≡ NoMemory) }
{
    let mut frames = VecDeque::new(alloc);
    for reply in unsent.iter() {
        match reply {
            Reply::Owed => return Ok(frames),
            Reply::Settled(success) => frames.push_back(reply_frame(to, *success))?,
        }
    }
    Ok(frames)
}

/// The replies that are ready leave.
fn drop_ready(unsent: &mut VecDeque<Reply>)
    ensures { unsent.new.items ≡ replies.held unsent.old.items }
{
    while let Some(reply) = unsent.front() {
        if matches!(reply, Reply::Owed) {
            return;
        }
        let _ = unsent.pop_front();
    }
}

impl Replies {
    pub(crate) fn new(alloc: Global) -> Replies
        ensures { result ≡ replies.none_wanted }
    {
        Replies {
            count: 0,
            unsent: VecDeque::new(alloc),
        }
    }

    /// A request wants a reply. Answers how many were wanted before it. `NoMemory`, also where
    /// 2^64 - 1 were, leaves all as it was.
    pub(crate) fn want(&mut self) -> Result<u64, TableError>
        ensures place { IfOk result (λ place. place ≡ self.old.count) }
        ensures wanted { OnOk result (self.new ≡ replies.one_more self.old) }
        ensures unchanged { OnErr result (self.new ≡ self.old) }
        ensures memory { IfErr result (λ e. e ≡ NoMemory) }
    {
        let place = self.count;
        if place == u64::MAX {
            return Err(TableError::NoMemory);
        }
        self.unsent.push_back(Reply::Owed)?;
        self.count = place + 1;
        Ok(place)
    }

    /// This index, where the reply that stands there is owed.
    fn owed_at(&self, index: usize) -> Option<usize>
        ensures found { IfSome result (λ at. (at ≡ index) × (index < length self.now.unsent)
            × (get_or self.now.unsent index Owed ≡ Owed)) }
        ensures none { IfNone result ((success : Bool)
            × (get_or self.now.unsent index (Settled success) ≡ Settled success)) }
    {
        match self.unsent.get(index) {
            Some(Reply::Owed) => Some(index),
            Some(Reply::Settled(_)) => None,
            None => None,
        }
    }

    /// The index of the owed reply of this place, or of the first that is owed.
    fn index_of(&self, place: Option<u64>) -> Option<usize>
        ensures found { IfSome result (λ index. replies.StandsAt place self.now index) }
        ensures none { IfNone result (replies.owes place self.now ≡ false) }
    {
        let first = self.count - self.unsent.len() as u64;
        match place {
            None => self.owed_at(0),
            Some(place) if place < first => None,
            Some(place) => self.owed_at((place - first) as usize),
        }
    }

    /// Whether the reply of this place, or any where none is given, is owed.
    pub(crate) fn owes(&self, place: Option<u64>) -> bool
        ensures { result ≡ replies.owes place self.now }
    {
        self.index_of(place).is_some()
    }

    /// The owed reply of this place, or the first that is owed, is settled, and those that are
    /// ready then are staged. It costs the same however many are owed, but for those that leave.
    /// Where there is no memory, all is as before.
    pub(crate) fn settle(
        &mut self,
        alloc: Global,
        to: Recipient,
        place: Option<u64>,
        success: bool,
        staged: &mut VecDeque<Frame>,
    ) -> Result<(), TableError>
        requires owed { replies.owes place self.old ≡ true }
        ensures settled { OnOk result (self.new ≡ replies.settled place success self.old) }
        ensures staged { OnOk result (staged.new.items
            ≡ staged.old.items ++ map (layout.reply_frame to.own.0 to.peer)
            (replies.sent place success self.old)) }
        ensures unchanged { OnErr result (self.new ≡ self.old) }
        ensures kept { OnErr result (staged.new.items ≡ staged.old.items) }
        ensures memory { IfErr result (λ e. e ≡ NoMemory) }
    {
        let Some(index) = self.index_of(place) else {
            return Ok(());
        };
        self.unsent[index] = Reply::Settled(success);
        if let Err(why) = stage_ready(alloc, to, &self.unsent, staged) {
            self.unsent[index] = Reply::Owed;
            return Err(why);
        }
        drop_ready(&mut self.unsent);
        Ok(())
    }
}
