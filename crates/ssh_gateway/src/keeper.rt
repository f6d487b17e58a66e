// What a gateway's handler keeps of what it is asked, and so tells.
ghost use Rattle.std.specs.Prelude.{◌≡◌, [], ◌∷◌, ◌++◌, Some, None, ℕ, List, Option, false};
ghost use Rattle.std.specs.Prelude.{OnOk, OnErr, IfSome, IsErr};
ghost use Rattle.ssh_link.specs.Told.{AddsOne, Tells};
ghost use Rattle.ssh_link.specs.declared.command.Command.TheVariants.{ChannelFailure, Answer};
ghost use Rattle.ssh_auth.specs.declared.call.Call.{Call};
ghost use Rattle.ssh_auth.specs.declared.question.Lent.TheVariants.{Happened, Opens};
ghost use Rattle.ssh_auth.specs.declared.question.Question.TheVariants.{Lends};
ghost use Rattle.ssh_auth.specs.Calls.{lent_call, judged_call};
ghost use Rattle.ssh_handler.specs.declared.recorded.RecordError.{RecordError as Failure};
ghost use Rattle.ssh_gateway.specs.Answering.{told_of, records, refusal};

use ssh_auth::{Happening, Judged, Lent, OpenType, Question};
use ssh_handler::{Commands, RecordError};
use ssh_link::ChannelOpenHandle;
use ssh_wire::{ChannelId, WireError};
use std::alloc::Global;
use std::marker::{Brand, Model, PhantomData};

/// What was asked in the input that is served now, but for authentication. A clause sees the
/// questions in order, and none once one of them found no memory.
#[derive(Drop)]
pub(crate) struct Notebook {
    alloc: Global,
    asked: Vec<Question>,
    lost: bool,
}

impl Model for Notebook {
    ghost use Rattle.std.specs.Prelude.{List, Option, not};
    ghost use Rattle.ssh_auth.specs.declared.question.Question.{Question};
    ghost use Rattle.ssh_handler.specs.Recording.{told_while};

    ghost Value = { Option (List Question) };

    ghost view = { λ notebook. told_while (not notebook.lost) notebook.asked.items };
}

/// Whom a keeper asks, by which the caller's handler is known again once the session is gone,
/// whatever it tells then.
pub(crate) trait Pin {
    ghost name: { ℕ };
}

// A call picks its own.
impl Pin for Brand {
    ghost name = { 0 };
}

/// A handler of which another one says who is let in. It keeps what else is asked, and answers
/// that by a rule (specs/Answering.antt).
#[derive(Drop)]
pub(crate) struct Keeper<'a, 'b, A, J: Pin> {
    pub(crate) auth: &'a mut A,
    pub(crate) notebook: &'b mut Notebook,
    pub(crate) of: PhantomData<J>,
    ghost named: { auth.ghost_name ≡ J.name },
}

// Adds a question. One that finds no memory is dropped here, whatever it is.
fn add<T: Drop>(items: &mut Vec<T>, item: T) -> Result<(), WireError>
    ensures ok { OnOk result (items.new.items ≡ items.old.items ++ item ∷ []) }
    ensures err { OnErr result (items.new.items ≡ items.old.items) }
{
    items.push(item)?;
    Ok(())
}

impl Notebook {
    pub(crate) fn new(alloc: Global) -> Notebook
        ensures { result ≡ Some [] }
    {
        Notebook {
            alloc,
            asked: Vec::new(alloc),
            lost: false,
        }
    }

    pub(crate) fn alloc(&self) -> Global {
        self.alloc
    }

    /// Whether a question was not kept.
    pub(crate) fn is_lost(&self) -> bool
        ensures kept { result ≡ false → (asked : List Question) × (self.now ≡ Some asked) }
    {
        self.lost
    }
}

// The methods of a notebook that callbacks use: each tells its call where a handler tells what its
// notebook has, whatever the handler of authentication told before.
impl Notebook {
    /// The questions so far.
    pub(crate) fn asked(&self) -> &[Question]
        ensures { IfSome self.now (λ asked. result.now ≡ asked) }
    {
        self.asked.as_slice()
    }

    /// The next input is served: nothing of it was asked yet.
    pub(crate) fn clear(&mut self)
        ensures { (asked : List Question) → self.old ≡ Some asked → self.new ≡ Some [] }
    {
        self.asked.clear();
    }

    /// A question that cannot be kept.
    pub(crate) fn loses<T, E>(&mut self) -> Result<T, RecordError<E>>
        ensures lost { self.new ≡ None }
        ensures err { IsErr result }
        ensures told { (name : ℕ) (auth : Option (List (Call E))) (call : Call (Failure E)) →
            Tells (told_of name auth self.old) (told_of name auth self.new) result call }
    {
        self.lost = true;
        Err(RecordError::NoMemory)
    }

    /// Whether a user is let in is asked before all else of an input. Nothing else comes: it would
    /// be answered as want of memory is.
    pub(crate) fn begins<E>(&mut self) -> Result<(), RecordError<E>>
        ensures first { OnOk result (IfSome self.old (λ asked. asked ≡ [])) }
        ensures same { OnOk result (self.new ≡ self.old) }
        ensures lost { OnErr result (self.new ≡ None) }
    {
        if !self.asked.is_empty() {
            return self.loses();
        }
        Ok(())
    }

    /// Keeps a question.
    pub(crate) fn keep<E>(&mut self, question: Question) -> Result<(), RecordError<E>>
        ensures ok { OnOk result (AddsOne self.old self.new question) }
        ensures err { OnErr result (self.new ≡ None) }
    {
        if add(&mut self.asked, question).is_err() {
            self.lost = true;
            return Err(RecordError::NoMemory);
        }
        Ok(())
    }

    /// A callback that answers nothing, and recorded what the rule says.
    pub(crate) fn hears<E>(
        &mut self,
        lent: Lent,
        session: &Commands<'_>,
    ) -> Result<(), RecordError<E>>
        requires recorded { records lent ≡ session.now.recorded }
        ensures { (name : ℕ) (auth : Option (List (Call E))) →
            Tells (told_of name auth self.old) (told_of name auth self.new) result
            (lent_call lent result session.now.recorded) }
    {
        self.keep(Question::Lends(lent))
    }

    /// Something happens on a channel that is left unanswered.
    pub(crate) fn happens<E>(
        &mut self,
        channel: ChannelId,
        happening: Happening,
        session: &Commands<'_>,
    ) -> Result<(), RecordError<E>>
        requires quiet { records (Happened channel happening) ≡ [] }
        requires fresh { session.now.recorded ≡ [] }
        ensures { (name : ℕ) (auth : Option (List (Call E))) →
            Tells (told_of name auth self.old) (told_of name auth self.new) result
            (lent_call (Happened channel happening) result session.now.recorded) }
    {
        self.hears(Lent::Happened(channel, happening), session)
    }

    /// A request on a channel, which fails.
    pub(crate) fn fails<E>(
        &mut self,
        channel: ChannelId,
        request: Happening,
        session: &mut Commands<'_>,
    ) -> Result<(), RecordError<E>>
        requires failure { records (Happened channel request) ≡ ChannelFailure channel ∷ [] }
        requires fresh { session.old.recorded ≡ [] }
        ensures { (name : ℕ) (auth : Option (List (Call E))) →
            Tells (told_of name auth self.old) (told_of name auth self.new) result
            (lent_call (Happened channel request) result session.new.recorded) }
    {
        if session.channel_failure(channel).is_err() {
            drop(request);
            return self.loses();
        }
        self.hears(Lent::Happened(channel, request), session)
    }

    /// An open of a channel that goes to no host, which is refused.
    pub(crate) fn refuses<E>(
        &mut self,
        channel: ChannelId,
        opening: OpenType,
        reply: ChannelOpenHandle,
        session: &mut Commands<'_>,
    ) -> Result<(), RecordError<E>>
        requires refused { records (Opens channel opening) ≡ Answer (refusal reply) ∷ [] }
        requires fresh { session.old.recorded ≡ [] }
        ensures { (name : ℕ) (auth : Option (List (Call E))) →
            Tells (told_of name auth self.old) (told_of name auth self.new) result
            (lent_call (Opens channel opening) result session.new.recorded) }
    {
        if session.answer_open(reply.reject_default()).is_err() {
            drop(opening);
            return self.loses();
        }
        self.hears(Lent::Opens(channel, opening), session)
    }

    /// Something that is not granted.
    pub(crate) fn denies<E>(
        &mut self,
        judged: Judged,
        session: &Commands<'_>,
    ) -> Result<bool, RecordError<E>>
        requires fresh { session.now.recorded ≡ [] }
        ensures { (name : ℕ) (auth : Option (List (Call E))) →
            Tells (told_of name auth self.old) (told_of name auth self.new) result
            (judged_call judged result session.now.recorded) }
    {
        self.keep(Question::Judges(judged))?;
        Ok(false)
    }
}
