// The link of a connection: what it is told waits until it is taken out.
use ssh_link::{CommandOutcome, Frame, Input, Link, LinkFault, Notice, TraceEntry};
use std::alloc::Global;
use std::collections::VecDeque;
use std::marker::Model;

/// What a session told its link and nobody has taken out yet, in order: frames, notices, and what
/// came of commands. It keeps nothing that was taken out. A clause sees the list. No input comes
/// from it.
#[derive(Drop)]
pub struct Outbox {
    waiting: VecDeque<TraceEntry>,
}

impl Model for Outbox {
    ghost use Rattle.std.specs.Prelude.{List};
    ghost use Rattle.ssh_link.specs.declared.link.TraceEntry.{TraceEntry};

    ghost Value = { List TraceEntry };

    ghost view = { λ outbox. outbox.waiting.items };
}

impl Outbox {
    ghost use Rattle.std.specs.Prelude.{◌≡◌, List, [], ◌∷◌, ◌++◌, IfErr, OnOk, OnErr, MatchOption};
    ghost use Rattle.ssh_link.specs.declared.link.LinkFault.TheVariants.{NoMemory};
    ghost use Rattle.ssh_link.specs.declared.link.TraceEntry.{TraceEntry};

    /// Nothing waits.
    pub(crate) fn new(alloc: Global) -> Outbox
        ensures { result ≡ [] }
    {
        Outbox {
            waiting: VecDeque::new(alloc),
        }
    }

    /// What comes first, without taking it out; none where nothing waits.
    pub(crate) fn first(&self) -> Option<&TraceEntry>
        ensures { MatchOption result (self.now ≡ [])
            (λ entry. (rest : List TraceEntry) × (self.now ≡ entry.now ∷ rest)) }
    {
        self.waiting.front()
    }

    /// Takes out what comes first; none where nothing waits.
    pub(crate) fn take_first(&mut self) -> Option<TraceEntry>
        ensures { MatchOption result ((self.old ≡ []) × (self.new ≡ []))
            (λ entry. self.old ≡ entry ∷ self.new) }
    {
        self.waiting.pop_front()
    }

    // Adds an entry at the end.
    fn put(&mut self, entry: TraceEntry) -> Result<(), LinkFault>
        ensures ok { OnOk result (self.new ≡ self.old ++ entry ∷ []) }
        ensures err { OnErr result (self.new ≡ self.old) }
        ensures memory { IfErr result (λ e. e ≡ NoMemory) }
    {
        match self.waiting.push_back(entry) {
            Ok(()) => Ok(()),
            Err(_) => Err(LinkFault::NoMemory),
        }
    }
}

impl Link for Outbox {
    ghost use Rattle.std.specs.Prelude.{Some};

    ghost trace = { λ outbox. Some outbox };

    ghost faults = { λ _. 0 };

    fn next(&mut self, _commands: bool, _replies: bool) -> Result<Input, LinkFault> {
        Err(LinkFault::NoMemory)
    }

    fn send(&mut self, frame: Frame) -> Result<(), LinkFault> {
        self.put(TraceEntry::Sent(frame))
    }

    fn notice(&mut self, notice: Notice) -> Result<(), LinkFault> {
        self.put(TraceEntry::Noticed(notice))
    }

    fn answer(&mut self, ticket: u64, outcome: CommandOutcome) -> Result<(), LinkFault> {
        self.put(TraceEntry::Answered(ticket, outcome))
    }
}
