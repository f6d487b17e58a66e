// The link of a session to its peer.
ghost use Rattle.std.specs.Prelude.{◌≡◌, ◌≤◌, ℕ, List, Option, None, IfOk, IfErr, OnOk, OnErr};
ghost use Rattle.std.specs.Prelude.{IsErrOf};
ghost use Rattle.ssh_wire.specs.declared.error.WireError.TheVariants.{NoMemory};
ghost use Rattle.ssh_link.specs.declared.link.TraceEntry.{TraceEntry};
ghost use Rattle.ssh_link.specs.declared.link.TraceEntry.TheVariants.{Took, Sent, Noticed};
ghost use Rattle.ssh_link.specs.declared.link.TraceEntry.TheVariants.{Answered};
ghost use Rattle.ssh_link.specs.Told.{AddsOne, AddsNothing};
ghost use Rattle.ssh_link.specs.Asked.{IsAsked};
ghost use Rattle.ssh_link.specs.Faults.{Rose, NeverFalls, RoseIfKept};

use crate::{CommandOutcome, Frame, Input, Notice};
use ssh_wire::WireError;
use thiserror::Error;

/// A call of a link that was finished, as the link tells it.
#[derive(Debug, Drop, PartialEq, Eq)]
pub enum TraceEntry {
    /// An input was taken.
    Took {
        /// Whether commands were asked for.
        commands: bool,
        /// Whether replies to opens were asked for.
        replies: bool,
        /// The input that was given.
        input: Input,
    },
    /// A frame was handed on.
    Sent(Frame),
    /// A notice was given to the users of the channels.
    Noticed(Notice),
    /// What came of the command or the reply with this ticket was answered.
    Answered(u64, CommandOutcome),
}

impl TraceEntry {
    /// An equal entry. `NoMemory` is the only error.
    pub fn copy(&self) -> Result<TraceEntry, WireError>
        ensures ok { IfOk result (λ entry. entry ≡ self.now) }
        ensures memory { IfErr result (λ e. e ≡ NoMemory) }
    {
        match self {
            TraceEntry::Took {
                commands,
                replies,
                input,
            } => Ok(TraceEntry::Took {
                commands: *commands,
                replies: *replies,
                input: input.copy()?,
            }),
            TraceEntry::Sent(frame) => Ok(TraceEntry::Sent(frame.copy()?)),
            TraceEntry::Noticed(notice) => Ok(TraceEntry::Noticed(notice.copy()?)),
            TraceEntry::Answered(ticket, outcome) => Ok(TraceEntry::Answered(*ticket, *outcome)),
        }
    }
}

/// Why a call of a link was not finished.
#[derive(Clone, Copy, Debug, PartialEq, Eq, Error)]
pub enum LinkFault {
    /// The outside failed: the link's count of faults rose.
    #[error("the link failed")]
    Failed,
    /// There was no memory.
    #[error("no memory")]
    NoMemory,
}

/// Where inputs come from, and where frames go to. A link that tells its calls goes on telling
/// them.
pub trait Link {
    /// The finished calls in order, where the link tells them: none, where it is not written.
    ghost trace: { Self → Option (List TraceEntry) } = { λ _. None };

    /// How often the outside has failed: it rises where a call fails so, and never falls.
    ghost faults: { Self → ℕ };

    /// How often a call found no memory, where the link counts that: it rises where a call ends so,
    /// and never falls. No count is kept, where it is not written.
    ghost starved: { Self → Option ℕ } = { λ _. None };

    /// The next input. A link gives a command only where `commands` asks for it, and a reply to
    /// an open only where `replies` asks for it.
    fn next(&mut self, commands: bool, replies: bool) -> Result<Input, LinkFault>
        ensures took { IfOk result (λ input. AddsOne (trace self.old) (trace self.new)
            (Took commands replies input)) }
        ensures asked { IfOk result (λ input. IsAsked commands replies input.kind) }
        ensures err { OnErr result (AddsNothing (trace self.old) (trace self.new)) }
        ensures cause { IsErrOf result LinkFault.Failed → Rose (faults self.old) (faults self.new) }
        ensures memory { IsErrOf result LinkFault.NoMemory
            → RoseIfKept (starved self.old) (starved self.new) }
        ensures later { faults self.old ≤ faults self.new }
        ensures counted { NeverFalls (starved self.old) (starved self.new) };

    /// Hands a frame on to the peer.
    fn send(&mut self, frame: Frame) -> Result<(), LinkFault>
        ensures sent { OnOk result (AddsOne (trace self.old) (trace self.new) (Sent frame)) }
        ensures err { OnErr result (AddsNothing (trace self.old) (trace self.new)) }
        ensures cause { IsErrOf result LinkFault.Failed → Rose (faults self.old) (faults self.new) }
        ensures memory { IsErrOf result LinkFault.NoMemory
            → RoseIfKept (starved self.old) (starved self.new) }
        ensures later { faults self.old ≤ faults self.new }
        ensures counted { NeverFalls (starved self.old) (starved self.new) };

    /// Tells the users of the channels what happened.
    fn notice(&mut self, notice: Notice) -> Result<(), LinkFault>
        ensures noticed { OnOk result (AddsOne (trace self.old) (trace self.new) (Noticed notice)) }
        ensures err { OnErr result (AddsNothing (trace self.old) (trace self.new)) }
        ensures cause { IsErrOf result LinkFault.Failed → Rose (faults self.old) (faults self.new) }
        ensures memory { IsErrOf result LinkFault.NoMemory
            → RoseIfKept (starved self.old) (starved self.new) }
        ensures later { faults self.old ≤ faults self.new }
        ensures counted { NeverFalls (starved self.old) (starved self.new) };

    /// Answers what came of the command or the reply with this ticket.
    fn answer(&mut self, ticket: u64, outcome: CommandOutcome) -> Result<(), LinkFault>
        ensures answered { OnOk result (AddsOne (trace self.old) (trace self.new)
            (Answered ticket outcome)) }
        ensures err { OnErr result (AddsNothing (trace self.old) (trace self.new)) }
        ensures cause { IsErrOf result LinkFault.Failed → Rose (faults self.old) (faults self.new) }
        ensures memory { IsErrOf result LinkFault.NoMemory
            → RoseIfKept (starved self.old) (starved self.new) }
        ensures later { faults self.old ≤ faults self.new }
        ensures counted { NeverFalls (starved self.old) (starved self.new) };
}
