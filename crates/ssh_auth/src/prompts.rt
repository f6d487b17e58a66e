// The prompts of a round of keyboard-interactive.
ghost use Rattle.std.specs.Prelude.{◌≡◌, [], ◌∷◌, ◌++◌, IfOk, IfErr, OnOk, OnErr};
ghost use Rattle.ssh_wire.specs.declared.error.WireError.TheVariants.{NoMemory};
ghost use Rattle.ssh_auth.specs.Prompts.{are_same, are_same-laws};

use ssh_wire::{Text, WireError};
use std::alloc::Global;
use std::marker::Model;

/// Prompts that a user is shown, in order, each with whether what the user types is shown too (RFC
/// 4256 section 3.2). A clause sees the list.
#[derive(Drop)]
pub struct Prompts {
    prompts: Vec<(Text, bool)>,
}

impl Model for Prompts {
    ghost use Rattle.std.specs.Prelude.{ℕ, List, Bool};

    ghost Value = { List (List ℕ × Bool) };

    ghost view = { λ list. list.prompts.items };
}

impl Prompts {
    /// No prompt.
    pub fn new(alloc: Global) -> Prompts
        ensures { result ≡ [] }
    {
        Prompts {
            prompts: Vec::new(alloc),
        }
    }

    /// The prompts in order, each with its echo flag.
    pub fn as_slice(&self) -> &[(Text, bool)]
        ensures { result.now ≡ self.now }
    {
        self.prompts.as_slice()
    }

    /// Adds a prompt at the end; `echo` says whether the user sees what is typed. `NoMemory` is the
    /// only error, and leaves the list as it was.
    pub fn push(&mut self, text: Text, echo: bool) -> Result<(), WireError>
        ensures ok { OnOk result (self.new ≡ self.old ++ (text, echo) ∷ []) }
        ensures memory { IfErr result (λ e. e ≡ NoMemory) }
        ensures err { OnErr result (self.new ≡ self.old) }
    {
        self.prompts.push((text, echo))?;
        Ok(())
    }

    /// An equal list, whose texts share their bytes where they can. `NoMemory` is the only error.
    pub fn copy(&self, alloc: Global) -> Result<Prompts, WireError>
        ensures ok { IfOk result (λ prompts. prompts ≡ self.now) }
        ensures memory { IfErr result (λ e. e ≡ NoMemory) }
    {
        let mut copied = Prompts::new(alloc);
        for (text, echo) in self.prompts.iter() {
            copied.push(text.copy()?, *echo)?;
        }
        Ok(copied)
    }
}

/// Prompts are equal where their texts and flags are, in order.
impl PartialEq for Prompts {
    ghost use Rattle.std.specs.Cmp.{partial_equiv_from_equiv};

    ghost eq = { are_same };

    ghost laws = { partial_equiv_from_equiv are_same-laws };

    fn eq(&self, other: &Prompts) -> bool {
        self.as_slice() == other.as_slice()
    }
}

impl Eq for Prompts {
    ghost laws = { are_same-laws };
}
