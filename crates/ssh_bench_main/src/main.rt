//! A program to be timed: `table <workload> <channels> <count>` makes so many calls on a table of
//! so many channels, `session <workload> <channels> <count>` gives so many inputs to a session with
//! so many, `files <workload> 1 <count>` makes so many requests of a file server, and `gateway
//! <workload> <connections> <count>` sends so many pieces of 32 KiB through a gateway. It prints what
//! was done and no time. `bench/run` times it. `half` writes through the half of a channel, for
//! `bench/refuse-memory`.
#![tactic(auto)]

mod files;
mod forwarded;
mod half;
mod served;

use crate::files::{TRANSFERS, Transfer, transfer_named, transfers_done};
use crate::forwarded::{FORWARDINGS, Forwarding, forward, forwarding_named};
use crate::half::written_both_ways;
use crate::served::{Serving, serve, serving_named};
use bytes::Bytes;
use ssh_channels::{Adjusted, ChannelParams, Encrypted, TableError};
use ssh_wire::ChannelId;
use std::alloc::Global;
use std::env;
use std::process::ExitCode;
use std::sync::Wait;

/// The status where the words are not a workload with its two numbers.
const USAGE: u8 = 2;

/// The status where standard output failed.
const WRITE_FAULT: u8 = 4;

/// The status where there was no memory, or a call was refused.
const NO_MEMORY: u8 = 5;

/// The packet size of both sides, in bytes.
const PACKET: u32 = 32768;

/// The room that is kept on each channel, in bytes.
const TARGET: u32 = 2_097_152;

const KIB_64: usize = 65536;

const KIB_32: usize = 32768;

const SMALL: usize = 64;

/// A chunk that waits on a channel, in bytes.
const WAITING: usize = 1_048_576;

/// How many grants let out such a chunk.
const GRANTS: u32 = 1024;

/// The words that name a workload of a table.
const WORKLOADS: &str = "copy|copy-small|open|out|out-small|in|grant|flush-all";

/// The words that name a workload of a session.
const SERVINGS: &str = "in|out|out-small|grant|exchange";

/// What is done, on a table, on a session, on a file server or through a gateway.
#[derive(Clone, Copy, PartialEq, Eq)]
enum Work {
    Table(Workload),
    Session(Serving),
    Files(Transfer),
    Gateway(Forwarding),
}

/// What the calls are.
#[derive(Clone, Copy, PartialEq, Eq)]
enum Workload {
    /// No call: as many times 64 KiB are copied, each into a vector of its own.
    Copy,
    /// No call: as many times 64 bytes are copied, each into a vector of its own.
    CopySmall,
    /// A number is drawn, its channel is added, and closed again.
    Open,
    /// 64 KiB go out, and their frames are kept.
    Out,
    /// 64 bytes go out, and their frame is kept.
    OutSmall,
    /// 32 KiB come in.
    In,
    /// A grant of 1 KiB lets out as much of what waits, and its frame is kept.
    Grant,
    /// All channels are flushed, on which nothing waits.
    FlushAll,
}

fn workload_named(word: &str) -> Option<Workload> {
    match word {
        "copy" => Some(Workload::Copy),
        "copy-small" => Some(Workload::CopySmall),
        "open" => Some(Workload::Open),
        "out" => Some(Workload::Out),
        "out-small" => Some(Workload::OutSmall),
        "in" => Some(Workload::In),
        "grant" => Some(Workload::Grant),
        "flush-all" => Some(Workload::FlushAll),
        _ => None,
    }
}

fn piece(alloc: Global, length: usize) -> Result<Bytes, TableError> {
    let bytes: Vec<u8> = vec![in alloc; 7; length]?;
    Ok(Bytes::from_vec(bytes)?)
}

/// The channel of a call: each in turn.
fn turn(call: u32, channels: u32) -> ChannelId {
    ChannelId((call % channels.max(1)).wrapping_add(2))
}

fn params(alloc: Global, own: ChannelId, credit: u32) -> ChannelParams {
    ChannelParams::new(alloc, own.0, own, credit, TARGET, PACKET, PACKET)
}

fn opened(alloc: Global, channels: u32, credit: u32) -> Result<Encrypted, TableError> {
    let mut table = Encrypted::new(alloc);
    for _ in 0..channels {
        let own = table.new_channel_id()?;
        table.insert(params(alloc, own, credit))?;
    }
    Ok(table)
}

fn copy(alloc: Global, length: usize, count: u32) -> Result<u64, TableError> {
    let source = piece(alloc, length)?;
    let mut copies = Vec::new(alloc);
    for _ in 0..count {
        let mut bytes: Vec<u8> = Vec::with_capacity(alloc, length)?;
        bytes.extend_from_slice(source.as_slice())?;
        copies.push(bytes)?;
    }
    Ok(copies.len() as u64)
}

fn open(alloc: Global, table: &mut Encrypted, count: u32) -> Result<u64, TableError> {
    let mut done: u64 = 0;
    for _ in 0..count {
        let own = table.new_channel_id()?;
        if table.insert(params(alloc, own, 0))? && table.close(own)? {
            done = done.saturating_add(1);
        }
    }
    Ok(done)
}

fn send(
    table: &mut Encrypted,
    channels: u32,
    bytes: &Bytes,
    count: u32,
) -> Result<u64, TableError> {
    let mut done: u64 = 0;
    for call in 0..count {
        if table.data(turn(call, channels), bytes.clone()?, false)? {
            done = done.saturating_add(1);
        }
    }
    Ok(done)
}

/// Sends so many bytes in each call, all of which go out.
fn send_all(alloc: Global, channels: u32, length: usize, count: u32) -> Result<u64, TableError> {
    let bytes = piece(alloc, length)?;
    let mut table = opened(alloc, channels, u32::MAX)?;
    send(&mut table, channels, &bytes, count)
}

fn receive(
    table: &mut Encrypted,
    channels: u32,
    bytes: &[u8],
    count: u32,
) -> Result<u64, TableError> {
    let mut done: u64 = 0;
    for call in 0..count {
        let adjusted = table.adjust_window_size(turn(call, channels), bytes, TARGET)?;
        if adjusted != Adjusted::Dropped {
            done = done.saturating_add(1);
        }
    }
    Ok(done)
}

fn grant(table: &mut Encrypted, channels: u32, count: u32) -> Result<u64, TableError> {
    let mut done: u64 = 0;
    for call in 0..count {
        if table.grant(turn(call, channels), 1024, false)? == Some(0) {
            done = done.saturating_add(1);
        }
    }
    Ok(done)
}

fn flush_all(table: &mut Encrypted, count: u32) -> Result<u64, TableError> {
    for _ in 0..count {
        table.flush_all_pending()?;
    }
    Ok(u64::from(count))
}

/// How many calls did what they are for.
fn run(alloc: Global, work: Workload, channels: u32, count: u32) -> Result<u64, TableError> {
    match work {
        Workload::Copy => copy(alloc, KIB_64, count),
        Workload::CopySmall => copy(alloc, SMALL, count),
        Workload::Open => open(alloc, &mut opened(alloc, channels, 0)?, count),
        Workload::Out => send_all(alloc, channels, KIB_64, count),
        Workload::OutSmall => send_all(alloc, channels, SMALL, count),
        Workload::In => {
            let bytes = piece(alloc, KIB_32)?;
            receive(
                &mut opened(alloc, channels, 0)?,
                channels,
                bytes.as_slice(),
                count,
            )
        }
        Workload::Grant => {
            let bytes = piece(alloc, WAITING)?;
            let mut table = opened(alloc, channels, 0)?;
            let chunks = count / channels.max(1).saturating_mul(GRANTS) + 1;
            send(
                &mut table,
                channels,
                &bytes,
                channels.saturating_mul(chunks),
            )?;
            grant(&mut table, channels, count)
        }
        Workload::FlushAll => flush_all(&mut opened(alloc, channels, 0)?, count),
    }
}

/// How many calls or inputs did what they are for; none where memory was wanting.
fn done(alloc: Global, work: Work, channels: u32, count: u32) -> Option<u64> {
    match work {
        Work::Table(work) => run(alloc, work, channels, count).ok(),
        Work::Session(work) => serve(alloc, work, channels, count).ok(),
        Work::Files(work) => transfers_done(alloc, work, count).ok(),
        Work::Gateway(work) => forward(alloc, work, channels, count).ok(),
    }
}

/// The work that these two words name.
fn work_named(on: &str, name: &str) -> Option<Work> {
    match on {
        "table" => Some(Work::Table(workload_named(name)?)),
        "session" => Some(Work::Session(serving_named(name)?)),
        "files" => Some(Work::Files(transfer_named(name)?)),
        "gateway" => Some(Work::Gateway(forwarding_named(name)?)),
        _ => None,
    }
}

/// What the words ask for.
#[derive(Clone, Copy)]
enum Task {
    /// To write through the half of a channel.
    Half,
    /// This work, so many times on so many channels.
    Timed(Work, u32, u32),
}

fn asked(words: &[String]) -> Option<Task> {
    match words {
        [_, half] if half.as_str() == "half" => Some(Task::Half),
        [_, on, name, channels, count] => Some(Task::Timed(
            work_named(on.as_str(), name.as_str())?,
            channels.as_str().parse().ok()?,
            count.as_str().parse().ok()?,
        )),
        _ => None,
    }
}

/// What is printed; none where memory was wanting, or a call was refused.
fn report<R: Wait>(rt: &R, alloc: Global, task: Task) -> Option<String> {
    match task {
        Task::Half => written_both_ways(rt, alloc).ok(),
        Task::Timed(work, channels, count) => {
            let done = done(alloc, work, channels, count)?;
            format!(in alloc; "{done} of {count} calls on {channels} channels\n").ok()
        }
    }
}

fn main(rt: HostRuntime) -> ExitCode {
    let alloc = rt.alloc();
    let mut words = Vec::new(alloc);
    if let Ok(args) = env::args(&rt) {
        for word in args {
            if words.push(word).is_err() {
                return ExitCode::from(NO_MEMORY);
            }
        }
    }
    let Some(task) = asked(words.as_slice()) else {
        let _ = eprintln!(rt; "usage: ssh_bench_main table {WORKLOADS} <channels> <count>");
        let _ = eprintln!(rt; "   or: ssh_bench_main session {SERVINGS} <channels> <count>");
        let _ = eprintln!(rt; "   or: ssh_bench_main files {TRANSFERS} 1 <count>");
        let _ = eprintln!(rt; "   or: ssh_bench_main gateway {FORWARDINGS} <connections> <count>");
        let _ = eprintln!(rt; "   or: ssh_bench_main half");
        return ExitCode::from(USAGE);
    };
    let Some(report) = report(&rt, alloc, task) else {
        return ExitCode::from(NO_MEMORY);
    };
    match print!(rt; "{report}") {
        Ok(()) => ExitCode::SUCCESS,
        Err(_) => ExitCode::from(WRITE_FAULT),
    }
}
