// What holds of the histories of a hub. Each law is a statement of specs/, which its function
// proves.
ghost use Rattle.ssh_hub.specs.Laws.{CommandsInOrder, RepliesInOrder, AnswersFirst};
ghost use Rattle.ssh_hub.specs.Laws.{BytesAreConserved, BytesFit, EndsAtTheFirst};
ghost use Rattle.ssh_hub.specs.Laws.{ReservedAddUp, ReservedByOwnCalls, InboxesAreOfOneSize};
ghost use Rattle.ssh_hub.specs.Laws.{BeginningsAreLegal};
ghost use Rattle.ssh_hub.specs.Does.{OneCallDoes, CallsAddUp};

/// The commands that were taken are the first of those that were put, in their order.
#[tactic(auto, using(crate::proofs::Order::commands_first))]
pub fn commands_in_order()
    ensures { CommandsInOrder }
{}

/// The answers to opens that were taken are the first of those that were put, in their order.
#[tactic(auto, using(crate::proofs::Order::replies_first))]
pub fn replies_in_order()
    ensures { RepliesInOrder }
{}

/// Where a take that asks for replies gives a command, every answer to an open that was put before
/// that take was taken before it.
#[tactic(auto, using(crate::proofs::Order::answers_first))]
pub fn answers_before_commands()
    ensures { AnswersFirst }
{}

/// What the window and the grants of a channel counted is left, or reserved by one seat, or spent
/// by puts.
#[tactic(auto, using(crate::proofs::Bytes::conserved))]
pub fn bytes_are_conserved()
    ensures { BytesAreConserved }
{}

/// What is left of a channel and what is reserved of it stay below 2^32 together.
#[tactic(auto, using(crate::proofs::Bytes::fits))]
pub fn bytes_fit()
    ensures { BytesFit }
{}

/// The sum that the hub counts as reserved of a channel is that of what each seat has reserved.
#[tactic(auto, using(crate::proofs::Bytes::adds_up))]
pub fn reservations_add_up()
    ensures { ReservedAddUp }
{}

/// What a seat has reserved is what its own calls make of it: what `reserve` gave, less what it gave
/// back or put, also where a channel was closed, or made ready a second time.
#[tactic(auto, using(crate::proofs::Own::by_own_calls))]
pub fn reserved_by_own_calls()
    ensures { ReservedByOwnCalls }
{}

/// In each inbox may wait as many messages as the hub was made for.
#[tactic(auto, using(crate::proofs::Bytes::of_one_size))]
pub fn inboxes_are_of_one_size()
    ensures { InboxesAreOfOneSize }
{}

/// A beginning of a legal history is legal.
#[tactic(auto, using(crate::proofs::Histories::legal_before))]
pub fn beginnings_are_legal()
    ensures { BeginningsAreLegal }
{}

/// A hub has ended at the place of the first end in its history, and not where there is none.
#[tactic(auto, using(crate::proofs::Ends::ended_at_first))]
pub fn ends_at_the_first_end()
    ensures { EndsAtTheFirst }
{}

/// A seat that made one call did that call and no other.
pub fn one_call_does()
    ensures { OneCallDoes }
{}

/// A seat that did some calls, and then others, did all of them, in that order.
#[tactic(auto, using(crate::proofs::Did::did_both))]
pub fn calls_add_up()
    ensures { CallsAddUp }
{}
