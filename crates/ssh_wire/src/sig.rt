// The names of signals.
ghost use Rattle.std.specs.Prelude.{◌≡◌, IfOk, IfErr, Ok};
ghost use Rattle.ssh_wire.specs.Signals.{signal_name, IsStandard};
ghost use Rattle.ssh_wire.specs.declared.error.WireError.TheVariants.{NoMemory};
ghost use Rattle.ssh_wire.specs.declared.sig.Sig.{Sig};

use crate::{Text, WireError};
use std::alloc::Global;

/// A signal, by its name without "SIG" (RFC 4254 section 6.10).
#[derive(Debug, Drop, PartialEq, Eq)]
pub enum Sig {
    /// Aborts.
    ABRT,
    /// A timer ran out.
    ALRM,
    /// Wrong arithmetic.
    FPE,
    /// The terminal was hung up.
    HUP,
    /// An illegal instruction.
    ILL,
    /// Interrupts.
    INT,
    /// Kills.
    KILL,
    /// Nobody reads the pipe.
    PIPE,
    /// Quits.
    QUIT,
    /// A wrong access to memory.
    SEGV,
    /// Asks the program to end.
    TERM,
    /// Whatever the program takes it for.
    USR1,
    /// Whatever the program takes it for.
    USR2,
    /// A signal of another name.
    Custom(Text),
}

impl Sig {
    /// The signal that has this name. A name of the standard's takes no memory.
    pub fn from_name(alloc: Global, name: &str) -> Result<Sig, WireError>
        ensures name { IfOk result (λ sig. signal_name sig ≡ name.now) }
        ensures standard { (sig : Sig) → IsStandard sig → signal_name sig ≡ name.now
            → result ≡ Ok sig }
        ensures memory { IfErr result (λ e. e ≡ NoMemory) }
    {
        Ok(match name {
            "ABRT" => Sig::ABRT,
            "ALRM" => Sig::ALRM,
            "FPE" => Sig::FPE,
            "HUP" => Sig::HUP,
            "ILL" => Sig::ILL,
            "INT" => Sig::INT,
            "KILL" => Sig::KILL,
            "PIPE" => Sig::PIPE,
            "QUIT" => Sig::QUIT,
            "SEGV" => Sig::SEGV,
            "TERM" => Sig::TERM,
            "USR1" => Sig::USR1,
            "USR2" => Sig::USR2,
            _ => Sig::Custom(Text::new(alloc, name)?),
        })
    }

    /// The signal's name on the wire.
    pub fn name(&self) -> &str
        ensures { result.now ≡ signal_name self.now }
    {
        match self {
            Sig::ABRT => "ABRT",
            Sig::ALRM => "ALRM",
            Sig::FPE => "FPE",
            Sig::HUP => "HUP",
            Sig::ILL => "ILL",
            Sig::INT => "INT",
            Sig::KILL => "KILL",
            Sig::PIPE => "PIPE",
            Sig::QUIT => "QUIT",
            Sig::SEGV => "SEGV",
            Sig::TERM => "TERM",
            Sig::USR1 => "USR1",
            Sig::USR2 => "USR2",
            Sig::Custom(name) => name.as_str(),
        }
    }

    /// An equal signal. One of the standard's takes no memory.
    pub fn copy(&self) -> Result<Sig, WireError>
        ensures ok { IfOk result (λ sig. sig ≡ self.now) }
        ensures standard { IsStandard self.now → result ≡ Ok self.now }
        ensures memory { IfErr result (λ e. e ≡ NoMemory) }
    {
        Ok(match self {
            Sig::ABRT => Sig::ABRT,
            Sig::ALRM => Sig::ALRM,
            Sig::FPE => Sig::FPE,
            Sig::HUP => Sig::HUP,
            Sig::ILL => Sig::ILL,
            Sig::INT => Sig::INT,
            Sig::KILL => Sig::KILL,
            Sig::PIPE => Sig::PIPE,
            Sig::QUIT => Sig::QUIT,
            Sig::SEGV => Sig::SEGV,
            Sig::TERM => Sig::TERM,
            Sig::USR1 => Sig::USR1,
            Sig::USR2 => Sig::USR2,
            Sig::Custom(name) => Sig::Custom(name.copy()?),
        })
    }
}
