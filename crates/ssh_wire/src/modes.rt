// The modes of a terminal with their values.
ghost use Rattle.std.specs.Prelude.{◌≡◌, [], ◌∷◌, ◌++◌, IfOk, IfErr, OnOk, OnErr};
ghost use Rattle.ssh_wire.specs.declared.error.WireError.TheVariants.{NoMemory};

use crate::{Pty, WireError};
use std::alloc::Global;
use std::marker::Model;

/// Modes of a terminal with their values, in order (RFC 4254 section 8). A clause sees the list.
#[derive(Debug, Drop)]
pub struct Modes {
    modes: Vec<(Pty, u32)>,
}

impl Model for Modes {
    ghost use Rattle.std.specs.Prelude.{ℕ, List};
    ghost use Rattle.ssh_wire.specs.declared.pty.Pty.{Pty};

    ghost Value = { List (Pty × ℕ) };

    ghost view = { λ list. list.modes.items };
}

impl Modes {
    /// No mode.
    pub fn new(alloc: Global) -> Modes
        ensures { result ≡ [] }
    {
        Modes {
            modes: Vec::new(alloc),
        }
    }

    /// The modes in order.
    pub fn as_slice(&self) -> &[(Pty, u32)]
        ensures { result.now ≡ self.now }
    {
        self.modes.as_slice()
    }

    /// Adds a mode with its value at the end. Where there is no memory, the list is as before.
    pub fn push(&mut self, mode: (Pty, u32)) -> Result<(), WireError>
        ensures ok { OnOk result (self.new ≡ self.old ++ mode ∷ []) }
        ensures memory { IfErr result (λ e. e ≡ NoMemory) }
        ensures err { OnErr result (self.new ≡ self.old) }
    {
        self.modes.push(mode)?;
        Ok(())
    }

    /// An equal list.
    pub fn copy(&self) -> Result<Modes, WireError>
        ensures ok { IfOk result (λ modes. modes ≡ self.now) }
        ensures memory { IfErr result (λ e. e ≡ NoMemory) }
    {
        Ok(Modes {
            modes: self.modes.clone()?,
        })
    }
}

/// Two lists are equal where their modes and the values of these are, in order.
impl PartialEq for Modes {
    ghost use Rattle.std.specs.Cmp.{partial_equiv_from_equiv};
    ghost use Rattle.ssh_wire.specs.TerminalModes.{are_same, are_same-laws};

    ghost eq = { are_same };

    ghost laws = { partial_equiv_from_equiv are_same-laws };

    fn eq(&self, other: &Modes) -> bool {
        self.as_slice() == other.as_slice()
    }
}

impl Eq for Modes {
    ghost use Rattle.ssh_wire.specs.TerminalModes.{are_same-laws};

    ghost laws = { are_same-laws };
}
