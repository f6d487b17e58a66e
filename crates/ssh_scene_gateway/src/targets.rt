// The targets of a script: what each connection gives, and what was asked of it.
ghost use Rattle.std.specs.Prelude.{◌≡◌, ◌⊎◌, ◌∷◌, ◌++◌, [], true, false, IfOk, OnOk, IsOkAnd};
ghost use Rattle.std.specs.Prelude.{Ok, Err, drop, not, option_map, option_to_list};
ghost use Rattle.std.specs.List.{find, position, filter};
ghost use Rattle.ssh_gateway.specs.Asked.{IsFull};
ghost use Rattle.ssh_gateway.specs.declared.targets.TargetCall.TheVariants as answered;
ghost use Rattle.ssh_scene_gateway.specs.Reaching.{is_at, is_of, connection, is_reached, arrives};
ghost use Rattle.ssh_scene_gateway.specs.Reaching.{arrives_from, read_from, untouched, as_given};
ghost use Rattle.ssh_scene_gateway.specs.Reaching.{left_after};

use bytes::Bytes;
use ssh_gateway::{Arrived, TargetCall, TargetFault, Targets};
use ssh_wire::Text;
use std::alloc::{AllocError, Global};

/// A host that can be reached at a port, and what it gives.
#[derive(Drop)]
pub struct ScriptHost {
    /// The host.
    pub host: Text,
    /// The port.
    pub port: u32,
    /// What each connection to it gives, before the end.
    pub bytes: Bytes,
}

/// A connection, and what it has still to give.
#[derive(Drop)]
pub(crate) struct Stream {
    pub(crate) id: u64,
    pub(crate) left: Bytes,
}

/// Connects to the hosts of a script, and to no others; a connection gives the bytes of the first
/// such host, and then the end. The outside never fails. It tells its calls.
#[derive(Drop)]
pub struct ScriptTargets {
    pub(crate) alloc: Global,
    /// The hosts of the script, which it tells before its calls.
    pub hosts: Vec<ScriptHost>,
    /// What the connections have still to give.
    pub(crate) streams: Vec<Stream>,
    /// The calls so far, with their answers.
    pub calls: Vec<TargetCall>,
    /// Whether a call was not kept, or not answered, for want of memory.
    pub lost: bool,
    ghost given: { lost ≡ false → as_given (untouched hosts.items) calls.items
        ≡ calls.items },
    ghost left: { lost ≡ false → left_after (untouched hosts.items) calls.items
        ≡ record { hosts = hosts.items; streams = streams.items } },
}

impl ScriptTargets {
    /// Targets that were not called yet.
    pub fn new(alloc: Global, hosts: Vec<ScriptHost>) -> ScriptTargets
        ensures hosts { result.hosts ≡ hosts }
        ensures calls { result.calls.items ≡ [] }
        ensures lost { result.lost ≡ false }
    {
        ScriptTargets {
            alloc,
            hosts,
            streams: Vec::new(alloc),
            calls: Vec::new(alloc),
            lost: false,
        }
    }
}

// Whether it is this host at this port.
fn is_at(one: &ScriptHost, host: &str, port: u32) -> bool
    ensures { result ≡ is_at host.now port one.now }
{
    one.port == port && one.host.as_str() == host
}

// The first such host.
fn host_at<'a>(hosts: &'a [ScriptHost], host: &str, port: u32) -> Option<&'a ScriptHost>
    ensures { option_map (λ one. one.now) result ≡ find (is_at host.now port) hosts.now }
{
    hosts.iter().find(|one| is_at(*one, host, port))
}

// The connection to the first such host; none where there is none.
fn connection(
    hosts: &[ScriptHost],
    id: u64,
    host: &str,
    port: u32,
) -> Result<Option<Stream>, AllocError>
    ensures { IfOk result (λ made. option_to_list made
        ≡ connection id (find (is_at host.now port) hosts.now)) }
{
    match host_at(hosts, host, port) {
        Some(one) => Ok(Some(Stream {
            id,
            left: one.bytes.clone()?,
        })),
        None => Ok(None),
    }
}

// Makes a connection where there is one to be made, and answers whether it was.
fn connect(
    hosts: &[ScriptHost],
    streams: &mut Vec<Stream>,
    id: u64,
    host: &str,
    port: u32,
) -> Result<bool, AllocError>
    ensures made { IfOk result (λ made. made ≡ is_reached (find (is_at host.now port) hosts.now)) }
    ensures streams { OnOk result (streams.new.items
        ≡ streams.old.items ++ connection id (find (is_at host.now port) hosts.now)) }
{
    match connection(hosts, id, host, port)? {
        Some(stream) => {
            streams.push(stream)?;
            Ok(true)
        }
        None => Ok(false),
    }
}

// The next bytes of a stream, at most so many.
fn take(left: &mut Bytes, most: usize) -> Result<Arrived, AllocError>
    ensures arrived { IfOk result (λ arrived. arrived ≡ arrives most left.old) }
    ensures left { OnOk result (left.new ≡ drop most left.old) }
    ensures full { IfOk result (IsFull most) }
{
    if left.is_empty() {
        return Ok(Arrived::End);
    }
    if most == 0 {
        return Ok(Arrived::Nothing);
    }
    Ok(Arrived::Bytes(left.split_to(most.min(left.len()))?))
}

// Where a connection stands.
fn place_of(streams: &[Stream], id: u64) -> Option<usize>
    ensures { result ≡ position (is_of id) streams.now }
{
    streams.iter().position(|one| one.id == id)
}

// The next bytes of a connection, at most so many.
fn read(streams: &mut Vec<Stream>, id: u64, most: usize) -> Result<Arrived, AllocError>
    ensures arrived { IfOk result (λ arrived. arrived
        ≡ arrives_from most (find (is_of id) streams.old.items)) }
    ensures left { OnOk result (streams.new.items
        ≡ read_from most (position (is_of id) streams.old.items) streams.old.items) }
    ensures full { IfOk result (IsFull most) }
{
    match place_of(streams, id) {
        Some(place) => take(&mut streams[place].left, most),
        None => Ok(Arrived::End),
    }
}

// Without this connection.
fn close(streams: &mut Vec<Stream>, id: u64)
    ensures { streams.new.items ≡ filter (λ one. not (is_of id one)) streams.old.items }
{
    streams.retain(|one| one.id != id);
}

// A connect with its answer.
fn connect_call(
    alloc: Global,
    id: u64,
    host: &str,
    port: u32,
    made: bool,
) -> Result<TargetCall, AllocError>
    ensures { IfOk result (λ call. call ≡ answered.Connect id host.now port (Ok made)) }
{
    match Text::new(alloc, host) {
        Ok(host) => Ok(TargetCall::Connect {
            id,
            host,
            port,
            answer: Ok(made),
        }),
        Err(_) => Err(AllocError),
    }
}

// A read with its answer.
fn read_call(id: u64, most: usize, arrived: &Arrived) -> Result<TargetCall, AllocError>
    ensures { IfOk result (λ call. call ≡ answered.Read id most (Ok arrived.now)) }
{
    match arrived.copy() {
        Ok(copy) => Ok(TargetCall::Read {
            id,
            most,
            answer: Ok(copy),
        }),
        Err(_) => Err(AllocError),
    }
}

// A write that is done.
fn write_call(alloc: Global, id: u64, bytes: &[u8]) -> Result<TargetCall, AllocError>
    ensures { IfOk result (λ call. call ≡ answered.Write id bytes.now (Ok tt)) }
{
    let bytes = Bytes::copy_from_slice(alloc, bytes)?;
    Ok(TargetCall::Write {
        id,
        bytes,
        answer: Ok(()),
    })
}

// Keeps a call, and passes its answer on. Where there is no memory for it, that is the answer, and
// no call is told any more.
fn keep<T: Drop>(
    calls: &mut Vec<TargetCall>,
    lost: &mut bool,
    call: Result<TargetCall, AllocError>,
    answer: T,
) -> Result<T, TargetFault>
    ensures { ((lost.new ≡ true) × (result ≡ Err TargetFault.NoMemory))
        ⊎ (IsOkAnd call (λ one. calls.new.items ≡ calls.old.items ++ one ∷ [])
        × (lost.new ≡ lost.old) × (result ≡ Ok answer)) }
{
    if let Ok(call) = call {
        if calls.push(call).is_ok() {
            return Ok(answer);
        }
    }
    *lost = true;
    drop(answer);
    Err(TargetFault::NoMemory)
}

impl Targets for ScriptTargets {
    ghost use Rattle.ssh_scene_gateway.specs.Reaching.{told_of};

    // It tells first which hosts can be reached, and then its calls.
    ghost told = { λ targets. told_of targets.lost targets.hosts.items targets.calls.items };

    ghost faults = { λ _. 0 };

    fn connect(&mut self, id: u64, host: &str, port: u32) -> Result<bool, TargetFault> {
        let Ok(made) = connect(&self.hosts, &mut self.streams, id, host, port) else {
            self.lost = true;
            return Err(TargetFault::NoMemory);
        };
        let call = connect_call(self.alloc, id, host, port, made);
        keep(&mut self.calls, &mut self.lost, call, made)
    }

    fn write(&mut self, id: u64, bytes: &[u8]) -> Result<(), TargetFault> {
        let call = write_call(self.alloc, id, bytes);
        keep(&mut self.calls, &mut self.lost, call, ())
    }

    fn read(&mut self, id: u64, most: usize) -> Result<Arrived, TargetFault> {
        let Ok(arrived) = read(&mut self.streams, id, most) else {
            self.lost = true;
            return Err(TargetFault::NoMemory);
        };
        let call = read_call(id, most, &arrived);
        keep(&mut self.calls, &mut self.lost, call, arrived)
    }

    fn finish(&mut self, id: u64) -> Result<(), TargetFault> {
        let call = TargetCall::Finish { id, answer: Ok(()) };
        keep(&mut self.calls, &mut self.lost, Ok(call), ())
    }

    fn close(&mut self, id: u64) -> Result<(), TargetFault> {
        close(&mut self.streams, id);
        let call = TargetCall::Close { id, answer: Ok(()) };
        keep(&mut self.calls, &mut self.lost, Ok(call), ())
    }
}
