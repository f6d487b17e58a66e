// What came of what was taken.
ghost use Rattle.std.specs.Prelude.{◌≡◌, OnOk, OnErr, IfOk};
ghost use Rattle.ssh_hub.specs.Step.{act};
ghost use Rattle.ssh_hub.specs.Outcomes.{outcomes_after, refusals_after, channels_after, closed_by};
ghost use Rattle.ssh_hub.specs.declared.history.HubCall.TheVariants.{AnswerTicket, TakeOutcome};
ghost use Rattle.ssh_hub.specs.declared.history.HubCall.TheVariants.{AskRefusal};
ghost use Rattle.ssh_hub.specs.declared.history.HubReply.TheVariants.{Done, OutcomeIs, RefusalIs};
ghost use Rattle.ssh_link.specs.declared.outcome.CommandOutcome.TheVariants.{Refused, Opened};

use super::Hub;
use crate::channel::Channel;
use crate::queued::Due;
use ssh_link::{CommandOutcome, Refusal};
use ssh_wire::ChannelId;
use std::alloc::{AllocError, Global};
use std::collections::BTreeMap;

/// Keeps the outcome where it is wanted. After an error, for want of memory, nothing has changed.
fn keep_outcome(
    outcomes: &mut BTreeMap<u64, CommandOutcome>,
    due: Due,
    outcome: CommandOutcome,
) -> Result<(), AllocError>
    ensures ok { OnOk result (outcomes.new.entries
        ≡ outcomes_after outcomes.old.entries due outcome) }
    ensures err { OnErr result (outcomes.new.entries ≡ outcomes.old.entries) }
{
    if !due.wanted {
        return Ok(());
    }
    match outcomes.insert(due.ticket, outcome) {
        Ok(_) => Ok(()),
        Err(_) => Err(AllocError),
    }
}

/// Keeps the refusal as the seat's newest, and the outcome where it is wanted. After an error, for
/// want of memory, nothing has changed.
#[tactic(auto, using(std::proofs::lemmas::Map::Steps::set_value_same, crate::proofs::Maps::without_new))]
fn keep_refused(
    refusals: &mut BTreeMap<u64, (u64, Refusal)>,
    outcomes: &mut BTreeMap<u64, CommandOutcome>,
    due: Due,
    why: Refusal,
) -> Result<(), AllocError>
    ensures refusals { OnOk result (refusals.new.entries
        ≡ refusals_after refusals.old.entries due (Refused why)) }
    ensures outcomes { OnOk result (outcomes.new.entries
        ≡ outcomes_after outcomes.old.entries due (Refused why)) }
    ensures no_refusals { OnErr result (refusals.new.entries ≡ refusals.old.entries) }
    ensures no_outcome { OnErr result (outcomes.new.entries ≡ outcomes.old.entries) }
{
    let outcome = CommandOutcome::Refused(why);
    let newest = (due.ticket, why);
    if let Some(kept) = refusals.get_mut(&due.seat) {
        keep_outcome(outcomes, due, outcome)?;
        *kept = newest;
        return Ok(());
    }
    if refusals.insert(due.seat, newest).is_err() {
        return Err(AllocError);
    }
    if keep_outcome(outcomes, due, outcome).is_err() {
        refusals.remove(&due.seat);
        return Err(AllocError);
    }
    Ok(())
}

/// The opened channel is there, with memory for `size` messages, and the outcome is kept where it is wanted. After an error, for
/// want of memory, nothing has changed.
#[tactic(auto, using(crate::proofs::Maps::without_new))]
fn keep_opened(
    alloc: Global,
    size: usize,
    channels: &mut BTreeMap<u32, Channel>,
    outcomes: &mut BTreeMap<u64, CommandOutcome>,
    due: Due,
    channel: ChannelId,
) -> Result<(), AllocError>
    ensures channels { OnOk result (channels.new.entries
        ≡ channels_after size channels.old.entries due (Opened channel)) }
    ensures outcomes { OnOk result (outcomes.new.entries
        ≡ outcomes_after outcomes.old.entries due (Opened channel)) }
    ensures no_channels { OnErr result (channels.new.entries ≡ channels.old.entries) }
    ensures no_outcome { OnErr result (outcomes.new.entries ≡ outcomes.old.entries) }
{
    let outcome = CommandOutcome::Opened(channel);
    if channels.contains_key(&channel.0) {
        return keep_outcome(outcomes, due, outcome);
    }
    let made = Channel::waiting(alloc, size)?;
    if channels.insert(channel.0, made).is_err() {
        return Err(AllocError);
    }
    if keep_outcome(outcomes, due, outcome).is_err() {
        channels.remove(&channel.0);
        return Err(AllocError);
    }
    Ok(())
}

/// Closes the channel of an accepted close; does nothing for what was no close.
fn close_channel(channels: &mut BTreeMap<u32, Channel>, closes: Option<u32>)
    ensures { channels.new.entries ≡ closed_by channels.old.entries closes }
{
    let Some(channel) = closes else {
        return;
    };
    if let Some(found) = channels.get_mut(&channel) {
        found.close();
    }
}

#[tactic(auto, unfolding(crate::specs::Step::act))]
impl Hub {
    /// What came of the command or reply with this ticket. It does nothing where that is not what
    /// was taken last, or was answered before. After an error, for want of memory, the hub is
    /// unchanged.
    pub fn answer(
        &mut self,
        by: u64,
        ticket: u64,
        outcome: CommandOutcome,
    ) -> Result<(), AllocError>
        ensures ok { IfOk result (λ _. act self.old by 0 (AnswerTicket ticket outcome)
            ≡ (self.new, Done)) }
        ensures err { OnErr result (self.new ≡ self.old) }
    {
        let _ = by;
        let Some(due) = self.due else {
            return Ok(());
        };
        if due.ticket != ticket {
            return Ok(());
        }
        match outcome {
            CommandOutcome::Accepted => {
                keep_outcome(&mut self.outcomes, due, outcome)?;
                close_channel(&mut self.channels, due.closes);
            }
            CommandOutcome::Opened(channel) => keep_opened(
                self.alloc,
                self.inbox_size,
                &mut self.channels,
                &mut self.outcomes,
                due,
                channel,
            )?,
            CommandOutcome::Refused(why) => {
                keep_refused(&mut self.refusals, &mut self.outcomes, due, why)?
            }
        }
        self.due = None;
        Ok(())
    }

    /// Gives out the kept outcome of the command with this ticket, once.
    pub fn outcome(&mut self, by: u64, ticket: u64) -> Option<CommandOutcome>
        ensures { act self.old by 0 (TakeOutcome ticket) ≡ (self.new, OutcomeIs result) }
    {
        let _ = by;
        self.outcomes.remove(&ticket)
    }

    /// The newest refusal of the seat `by`: the ticket of the command, and why it was refused.
    pub fn refusal(&self, by: u64) -> Option<(u64, Refusal)>
        ensures { act self.now by 0 AskRefusal ≡ (self.now, RefusalIs result) }
    {
        self.refusals.get(&by).copied()
    }
}
