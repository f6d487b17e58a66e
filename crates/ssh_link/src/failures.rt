// The calls that an outside in memory lets fail.
ghost use Rattle.std.specs.Prelude.{◌≡◌};
ghost use Rattle.ssh_link.specs.Memory.{fails_next, called, no_calls};

use crate::Calls;
use std::marker::Model;

// Counts the calls of an outside, and says which of them fail.
#[derive(Debug, Drop)]
pub(crate) struct PlannedFailures {
    fails: Calls,
    calls: u64,
    faults: u64,
}

impl Model for PlannedFailures {
    ghost use Rattle.std.specs.Prelude.{◌≤◌};
    ghost use Rattle.ssh_link.specs.Memory.{Failures};

    ghost Value = { Failures };

    ghost view = { λ f. record { fails = f.fails; calls = f.calls; faults = f.faults } };

    ghost invariant = { λ f. f.faults ≤ f.calls };
}

impl PlannedFailures {
    pub(crate) fn new(fails: Calls) -> PlannedFailures
        ensures { result ≡ no_calls fails }
    {
        PlannedFailures {
            fails,
            calls: 0,
            faults: 0,
        }
    }

    // How many calls were made.
    pub(crate) fn calls(&self) -> u64
        ensures { result ≡ self.now.calls }
    {
        self.calls
    }

    // How many of them failed.
    pub(crate) fn faults(&self) -> u64
        ensures { result ≡ self.now.faults }
    {
        self.faults
    }

    // Whether the call that begins now fails. A full count stands still, and then none does.
    pub(crate) fn next_fails(&mut self) -> bool
        ensures answer { result ≡ fails_next self.old }
        ensures after { self.new ≡ called self.old }
    {
        if self.calls == u64::MAX {
            return false;
        }
        let call = self.calls + 1;
        let failing = self.fails.as_slice().contains(&call);
        self.calls = call;
        if failing {
            self.faults += 1;
        }
        failing
    }
}
