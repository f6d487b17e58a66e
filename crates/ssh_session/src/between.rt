// What is done between two inputs, by whoever holds the session.
ghost use Rattle.std.specs.Prelude.{◌≡◌, ◌<◌, ◌++◌, false, IfOk, IfErr, OnErr, Option};
ghost use Rattle.std.specs.Prelude.{option_to_list};
ghost use Rattle.std.specs.VecDeque.{deque_len, deque_capacity};
ghost use Rattle.ssh_wire.specs.declared.error.WireError.TheVariants.{NoMemory};
ghost use Rattle.ssh_session.specs.Between.{Applies, untold};
ghost use Rattle.ssh_rules.specs.Effect.{effect, Brings};
ghost use Rattle.ssh_session.specs.Serve.{Refines, IsSameSession, IsUnchanged, is_spent};
ghost use Rattle.ssh_rules.specs.World.{World};

use crate::Session;
use ssh_link::{Command, CommandOutcome, Notice};
use ssh_serving::Done;
use ssh_wire::WireError;
use std::collections::VecDeque;
use std::mem;

/// Adds the notice, where there is one. There is room for it.
fn add(notices: &mut VecDeque<Notice>, notice: Option<Notice>)
    requires room { deque_len notices.old < deque_capacity notices.old }
    ensures { notices.new.items ≡ notices.old.items ++ option_to_list notice }
{
    if let Some(notice) = notice {
        notices.push_back_reserved(notice);
    }
}

impl Session {
    /// Does one command between two inputs, or refuses it, and answers what came of it. Its frames
    /// are handed on with the next input or by `flush`, and a notice that it gives is told first
    /// with that one. Where it ends the connection, the next input is not looked at any more.
    /// `NoMemory` is the only error, and leaves the session as it was. The session must not be
    /// spent.
    pub fn apply(&mut self, command: Command) -> Result<CommandOutcome, WireError>
        requires live { is_spent self.old ≡ false }
        ensures applied { Applies command self.old self.new result }
    {
        let mut notices = self.take_untold();
        let applied = self.apply_noting(&mut notices, command);
        self.keep_untold(notices);
        applied
    }

    /// Does the command or refuses it; the notice that it gives is added to these.
    fn apply_noting(
        &mut self,
        notices: &mut VecDeque<Notice>,
        command: Command,
    ) -> Result<CommandOutcome, WireError>
        ensures does { (w : World) → Refines self.old w → IfOk result (λ outcome.
            (given : Option Notice) × (world : World)
            × (effect w command ≡ Brings (option_to_list given) outcome world)
            × Refines self.new world
            × (notices.new.items ≡ notices.old.items ++ option_to_list given)) }
        ensures memory { IfErr result (λ e. e ≡ NoMemory) }
        ensures unchanged { OnErr result (IsUnchanged self.old self.new) }
        ensures kept { OnErr result (notices.new.items ≡ notices.old.items) }
        ensures session { IsSameSession self.old self.new }
    {
        if notices.reserve(1).is_err() {
            drop(command);
            return Err(WireError::NoMemory);
        }
        match self.server.carry_out::<(), ()>(None, command) {
            Ok(Done { notice, outcome }) => {
                add(notices, notice);
                Ok(outcome)
            }
            Err(e) => {
                drop(e);
                Err(WireError::NoMemory)
            }
        }
    }

    /// Takes the notices that were not told.
    pub(crate) fn take_untold(&mut self) -> VecDeque<Notice>
        ensures notices { result.items ≡ untold self.old }
        ensures unchanged { IsUnchanged self.old self.new }
        ensures session { IsSameSession self.old self.new }
    {
        mem::replace(&mut self.untold, VecDeque::new(self.server.alloc))
    }

    /// Keeps these notices to be told.
    pub(crate) fn keep_untold(&mut self, notices: VecDeque<Notice>)
        ensures notices { untold self.new ≡ notices.items }
        ensures unchanged { IsUnchanged self.old self.new }
        ensures session { IsSameSession self.old self.new }
        ensures spent { is_spent self.new ≡ is_spent self.old }
    {
        self.untold = notices;
    }
}
