// The handles of a server.
ghost use Rattle.std.specs.Prelude.{◌≡◌, ◌+◌, ◌-◌, ◌<◌, ◌^◌, ◌==◌, not, [], find, filter};
ghost use Rattle.std.specs.Prelude.{option_map, OnOk, IfOk, IfErr};
ghost use Rattle.ssh_wire.specs.declared.error.WireError.TheVariants.{NoMemory};
ghost use Rattle.ssh_sftp_core.specs.Files.{number_of, opened_by, one_more, closed, are_full};
ghost use Rattle.ssh_sftp_core.specs.Handles.{one_of};

use ssh_wire::WireError;
use std::alloc::Global;
use std::marker::Model;

const MOST_OPEN: usize = 256;

/// A handle that is open.
#[derive(Drop)]
pub(crate) struct Opened {
    pub(crate) number: u32,
    pub(crate) path: Vec<u8>,
    pub(crate) flags: u32,
}

/// The handles that are open, and how many were given so far.
#[derive(Drop)]
pub(crate) struct Handles {
    opened: Vec<Opened>,
    count: u32,
}

impl Model for Handles {
    ghost use Rattle.std.specs.Prelude.{map};
    ghost use Rattle.ssh_sftp_core.specs.Files.{Given};

    ghost Value = { Given };

    ghost use Rattle.ssh_sftp_core.specs.Handles.{one_of};

    ghost view = { λ h. record { opened = map one_of h.opened.items; count = h.count } };
}

// The number that a handle spells.
fn number_of(handle: &[u8]) -> Option<u32>
    ensures { result ≡ number_of handle.now }
{
    let Ok(bytes) = <[u8; 4]>::try_from(handle) else {
        return None;
    };
    Some(u32::from_be_bytes(bytes))
}

fn find_number(opened: &Vec<Opened>, number: u32) -> Option<&Opened>
    ensures { option_map (λ one. one.now) result
        ≡ find (λ one. one.number == number) opened.now.items }
{
    opened.iter().find(|one| one.number == number)
}

fn remove_number(opened: &mut Vec<Opened>, number: u32)
    ensures { opened.new.items ≡ filter (λ one. not (one.number == number)) opened.old.items }
{
    opened.retain(|one| one.number != number);
}

impl Handles {
    pub(crate) fn new(alloc: Global) -> Handles
        ensures { result ≡ record { opened = []; count = 0 } }
    {
        Handles {
            opened: Vec::new(alloc),
            count: 0,
        }
    }

    // Whether no handle more can be given.
    pub(crate) fn are_full(&self) -> bool
        ensures { result ≡ are_full self.now }
    {
        self.opened.len() >= MOST_OPEN || self.count == u32::MAX
    }

    // The open handle that these bytes spell.
    pub(crate) fn find(&self, handle: &[u8]) -> Option<&Opened>
        ensures { option_map (λ one. one_of one.now) result ≡ opened_by self.now handle.now }
    {
        let number = number_of(handle)?;
        find_number(&self.opened, number)
    }

    // Gives a handle more, and answers its number.
    pub(crate) fn give(&mut self, path: Vec<u8>, flags: u32) -> Result<u32, WireError>
        requires { self.old.count < 2 ^ 32 - 1 }
        ensures ok { OnOk result (self.new ≡ one_more self.old path.items flags) }
        ensures number { IfOk result (λ number. number ≡ self.old.count + 1) }
        ensures memory { IfErr result (λ e. e ≡ NoMemory) }
    {
        let number = self.count + 1;
        self.opened.push(Opened {
            number,
            path,
            flags,
        })?;
        self.count = number;
        Ok(number)
    }

    // Gives up the open handle of this number.
    pub(crate) fn close(&mut self, number: u32)
        ensures { self.new ≡ closed self.old number }
    {
        remove_number(&mut self.opened, number);
    }
}
