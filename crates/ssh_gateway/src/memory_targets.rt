// Targets in memory.
ghost use Rattle.std.specs.Prelude.{◌≡◌, ◌≢◌, ◌<◌, ◌≤◌, ◌⊎◌, [], ◌∷◌, ◌++◌, Some, None, Err, true, false};
ghost use Rattle.std.specs.Prelude.{IfOk, IfSome, OnOk, OnErr, IfErr};
ghost use Rattle.ssh_wire.specs.declared.error.WireError.TheVariants.{NoMemory};
ghost use Rattle.ssh_link.specs.Faults.{Rose};
ghost use Rattle.ssh_link.specs.Told.{AddsOne};
ghost use Rattle.ssh_gateway.specs.Asked.{IsFilled};
ghost use Rattle.ssh_gateway.specs.declared.targets.TargetCall.TheVariants as made;

use crate::{Arrived, TargetCall, TargetFault, Targets};
use bytes::Bytes;
use ssh_link::Calls;
use ssh_wire::{Text, WireError};
use std::alloc::Global;
use std::marker::Model;

// The calls so far, as long as there is memory for them. A clause sees those that are told.
#[derive(Drop)]
struct Log {
    calls: Vec<TargetCall>,
    goes_on: bool,
}

impl Model for Log {
    ghost use Rattle.std.specs.Prelude.{List, Option};
    ghost use Rattle.ssh_handler.specs.Recording.{told_while};
    ghost use Rattle.ssh_gateway.specs.declared.targets.TargetCall.{TargetCall};

    ghost Value = { Option (List TargetCall) };

    ghost view = { λ log. told_while log.goes_on log.calls.items };
}

// Keeps a call, and passes its answer on. Where there is no memory for it, that is the answer, and
// no call is told any more.
fn tell<T: Drop>(
    log: &mut Log,
    call: Result<TargetCall, WireError>,
    answer: Result<T, TargetFault>,
) -> Result<T, TargetFault>
    ensures { ((log.new ≡ None) × (result ≡ Err TargetFault.NoMemory))
        ⊎ (IfOk call (AddsOne log.old log.new) × (result ≡ answer) × (call ≢ Err NoMemory)) }
{
    if let Ok(call) = call {
        if log.calls.push(call).is_ok() {
            return answer;
        }
    }
    log.goes_on = false;
    drop(answer);
    Err(TargetFault::NoMemory)
}

// Which calls fail.
#[derive(Drop)]
struct Plan {
    fails: Calls,
    calls: u64,
    faults: u64,
    ghost bounded: { faults ≤ calls },
}

impl Plan {
    // The next call is made. It fails where its number says so; a full count stands still, and then
    // none does.
    fn next(&mut self) -> Result<(), TargetFault>
        ensures failed { OnErr result (Rose self.old.faults self.new.faults) }
        ensures later { self.old.faults ≤ self.new.faults }
    {
        if self.calls == u64::MAX {
            return Ok(());
        }
        self.calls += 1;
        if self.fails.as_slice().contains(&self.calls) {
            self.faults += 1;
            return Err(TargetFault::Failed);
        }
        Ok(())
    }
}

// A host that can be reached, and what it gives.
#[derive(Drop)]
struct Host {
    name: Text,
    port: u32,
    bytes: Bytes,
}

// A connection, and what it has still to give.
#[derive(Drop)]
struct Stream {
    id: u64,
    left: Bytes,
}

/// Targets in memory. `connect` is true exactly where the host and the port were added; the
/// connection gives the bytes of the first such entry, and then the end. The calls whose numbers it
/// was given fail; all kinds of call are counted together, from 1. It tells its calls, unless there
/// was no memory for one.
#[derive(Drop)]
pub struct MemoryTargets {
    alloc: Global,
    hosts: Vec<Host>,
    streams: Vec<Stream>,
    plan: Plan,
    log: Log,
}

impl MemoryTargets {
    ghost use Rattle.ssh_gateway.specs.Memory.{told_by};

    /// No host can be reached yet, and the calls with these numbers fail.
    pub fn new(alloc: Global, fails: Calls) -> MemoryTargets
        ensures { told_by result ≡ Some [] }
    {
        MemoryTargets {
            alloc,
            hosts: Vec::new(alloc),
            streams: Vec::new(alloc),
            plan: Plan {
                fails,
                calls: 0,
                faults: 0,
            },
            log: Log {
                calls: Vec::new(alloc),
                goes_on: true,
            },
        }
    }

    /// This host can be reached at this port too, and gives these bytes. `NoMemory` is the only
    /// error, and then nothing has changed.
    pub fn add(&mut self, host: Text, port: u32, bytes: Bytes) -> Result<(), WireError>
        ensures { IfErr result (λ e. e ≡ NoMemory) }
    {
        let name = host;
        self.hosts.push(Host { name, port, bytes })?;
        Ok(())
    }

    /// The calls so far, as long as they are told.
    pub fn calls(&self) -> &[TargetCall] {
        self.log.calls.as_slice()
    }

    // A stream to the host, where it can be reached.
    fn reach(&mut self, id: u64, host: &str, port: u32) -> Result<bool, TargetFault>
        ensures memory { result ≢ Err TargetFault.Failed }
        ensures plan { self.new.plan ≡ self.old.plan }
        ensures log { self.new.log ≡ self.old.log }
    {
        let place = self
            .hosts
            .iter()
            .position(|one| one.port == port && one.name.as_str() == host);
        let Some(place) = place else {
            return Ok(false);
        };
        let Ok(left) = self.hosts[place].bytes.clone() else {
            return Err(TargetFault::NoMemory);
        };
        match self.streams.push(Stream { id, left }) {
            Ok(()) => Ok(true),
            Err(_) => Err(TargetFault::NoMemory),
        }
    }

    // The next bytes of a stream.
    fn take(&mut self, id: u64, most: usize) -> Result<Arrived, TargetFault>
        ensures filled { IsFilled most result }
        ensures memory { result ≢ Err TargetFault.Failed }
        ensures plan { self.new.plan ≡ self.old.plan }
        ensures log { self.new.log ≡ self.old.log }
    {
        let Some(place) = self.streams.iter().position(|one| one.id == id) else {
            return Ok(Arrived::End);
        };
        let left = &mut self.streams[place].left;
        if left.is_empty() {
            return Ok(Arrived::End);
        }
        if most == 0 {
            return Ok(Arrived::Nothing);
        }
        match left.split_to(most.min(left.len())) {
            Ok(bytes) => Ok(Arrived::Bytes(bytes)),
            Err(_) => Err(TargetFault::NoMemory),
        }
    }
}

impl MemoryTargets {
    // A connection that may fail.
    fn connected(&mut self, id: u64, host: &str, port: u32) -> Result<bool, TargetFault>
        ensures failed { result ≡ Err TargetFault.Failed →
            Rose self.old.plan.faults self.new.plan.faults }
        ensures later { self.old.plan.faults ≤ self.new.plan.faults }
        ensures log { self.new.log ≡ self.old.log }
    {
        match self.plan.next() {
            Ok(()) => self.reach(id, host, port),
            Err(fault) => Err(fault),
        }
    }

    // A read that may fail.
    fn taken(&mut self, id: u64, most: usize) -> Result<Arrived, TargetFault>
        ensures filled { IsFilled most result }
        ensures failed { result ≡ Err TargetFault.Failed →
            Rose self.old.plan.faults self.new.plan.faults }
        ensures later { self.old.plan.faults ≤ self.new.plan.faults }
        ensures log { self.new.log ≡ self.old.log }
    {
        match self.plan.next() {
            Ok(()) => self.take(id, most),
            Err(fault) => Err(fault),
        }
    }
}

// A connect with its answer.
fn connect_call(
    alloc: Global,
    id: u64,
    host: &str,
    port: u32,
    answer: Result<bool, TargetFault>,
) -> Result<TargetCall, WireError>
    ensures ok { IfOk result (λ call. call ≡ made.Connect id host.now port answer) }
    ensures memory { IfErr result (λ e. e ≡ NoMemory) }
{
    Ok(TargetCall::Connect {
        id,
        host: Text::new(alloc, host)?,
        port,
        answer,
    })
}

impl Targets for MemoryTargets {
    ghost use Rattle.ssh_gateway.specs.Memory.{told_by};

    ghost told = { told_by };

    ghost faults = { λ targets. targets.plan.faults };

    fn connect(&mut self, id: u64, host: &str, port: u32) -> Result<bool, TargetFault> {
        let answer = self.connected(id, host, port);
        let call = connect_call(self.alloc, id, host, port, answer);
        tell(&mut self.log, call, answer)
    }

    fn write(&mut self, id: u64, bytes: &[u8]) -> Result<(), TargetFault> {
        let answer = self.plan.next();
        let call = match Bytes::copy_from_slice(self.alloc, bytes) {
            Ok(bytes) => Ok(TargetCall::Write { id, bytes, answer }),
            Err(_) => Err(WireError::NoMemory),
        };
        tell(&mut self.log, call, answer)
    }

    fn read(&mut self, id: u64, most: usize) -> Result<Arrived, TargetFault> {
        let answer = self.taken(id, most);
        let call = read_call(id, most, &answer);
        tell(&mut self.log, call, answer)
    }

    fn finish(&mut self, id: u64) -> Result<(), TargetFault> {
        let answer = self.plan.next();
        tell(&mut self.log, Ok(TargetCall::Finish { id, answer }), answer)
    }

    fn close(&mut self, id: u64) -> Result<(), TargetFault> {
        let answer = self.plan.next();
        self.streams.retain(|one| one.id != id);
        tell(&mut self.log, Ok(TargetCall::Close { id, answer }), answer)
    }
}

// A read with its answer.
fn read_call(
    id: u64,
    most: usize,
    answer: &Result<Arrived, TargetFault>,
) -> Result<TargetCall, WireError>
    ensures ok { IfOk result (λ call. call ≡ made.Read id most answer.now) }
    ensures memory { IfErr result (λ e. e ≡ NoMemory) }
{
    let answer = match answer {
        Ok(arrived) => Ok(arrived.copy()?),
        Err(fault) => Err(*fault),
    };
    Ok(TargetCall::Read { id, most, answer })
}
