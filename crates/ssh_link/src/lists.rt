// Lists of inputs and of call numbers.
ghost use Rattle.std.specs.Prelude.{◌≡◌, [], ◌∷◌, ◌++◌, IfErr, OnOk, OnErr};
ghost use Rattle.ssh_wire.specs.declared.error.WireError.TheVariants.{NoMemory};

use crate::Input;
use ssh_wire::WireError;
use std::alloc::Global;
use std::marker::Model;

// Adds an item at the end. What finds no memory is dropped here, whatever it is, and the list is
// as it was.
pub(crate) fn pushed<T: Drop>(items: &mut Vec<T>, item: T) -> Result<(), WireError>
    ensures ok { OnOk result (items.new.items ≡ items.old.items ++ item ∷ []) }
    ensures err { OnErr result (items.new.items ≡ items.old.items) }
    ensures memory { IfErr result (λ e. e ≡ NoMemory) }
{
    items.push(item)?;
    Ok(())
}

/// Inputs, in the order in which they are to be given. A clause sees the list.
#[derive(Debug, Drop)]
pub struct Inputs {
    items: Vec<Input>,
}

impl Model for Inputs {
    ghost use Rattle.std.specs.Prelude.{List};
    ghost use Rattle.ssh_link.specs.declared.frame.Input.{Input};

    ghost Value = { List Input };

    ghost view = { λ inputs. inputs.items.items };
}

impl Inputs {
    /// No input.
    pub fn new(alloc: Global) -> Inputs
        ensures { result ≡ [] }
    {
        Inputs {
            items: Vec::new(alloc),
        }
    }

    /// The inputs, in order.
    pub fn as_slice(&self) -> &[Input]
        ensures { result.now ≡ self.now }
    {
        self.items.as_slice()
    }

    /// Adds an input at the end. `NoMemory` is the only error, and leaves the list as it was.
    pub fn push(&mut self, input: Input) -> Result<(), WireError>
        ensures ok { OnOk result (self.new ≡ self.old ++ input ∷ []) }
        ensures err { OnErr result (self.new ≡ self.old) }
        ensures memory { IfErr result (λ e. e ≡ NoMemory) }
    {
        self.items.push(input)?;
        Ok(())
    }

    // The inputs, in order, to keep.
    pub(crate) fn into_vec(self) -> Vec<Input>
        ensures { result.items ≡ self }
    {
        self.items
    }
}

/// Numbers of calls, the first call being 1. A clause sees the list.
#[derive(Debug, Drop)]
pub struct Calls {
    items: Vec<u64>,
}

impl Model for Calls {
    ghost use Rattle.std.specs.Prelude.{ℕ, List};

    ghost Value = { List ℕ };

    ghost view = { λ calls. calls.items.items };
}

impl Calls {
    /// No call.
    pub fn new(alloc: Global) -> Calls
        ensures { result ≡ [] }
    {
        Calls {
            items: Vec::new(alloc),
        }
    }

    /// The numbers, in the order in which they were pushed.
    pub fn as_slice(&self) -> &[u64]
        ensures { result.now ≡ self.now }
    {
        self.items.as_slice()
    }

    /// Adds a number at the end. `NoMemory` is the only error, and leaves the list as it was.
    pub fn push(&mut self, call: u64) -> Result<(), WireError>
        ensures ok { OnOk result (self.new ≡ self.old ++ call ∷ []) }
        ensures err { OnErr result (self.new ≡ self.old) }
        ensures memory { IfErr result (λ e. e ≡ NoMemory) }
    {
        self.items.push(call)?;
        Ok(())
    }
}
