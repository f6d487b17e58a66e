// A gateway over a link in memory: what comes in, and what goes out.
use bytes::Bytes;
use ssh_auth::{Auth, AuthHandler, Unwritten};
use ssh_gateway::{
    GatewayError, ListPolicy, MemoryTargets, Policy, TargetCall, Targets, run_gateway,
};
use ssh_handler::Config;
use ssh_keys::TableVerifier;
use ssh_link::{Calls, Input, InputKind, Inputs, MemoryLink, PlainKex, PlainKexError, TraceEntry};
use ssh_session::RunError;
use ssh_wire::{Text, WireError};
use std::alloc::Global;

// SERVICE_REQUEST for ssh-userauth, and USERAUTH_REQUEST of alice by method none.
const LOGIN: [&[u8]; 2] = [
    b"\x05\0\0\0\x0cssh-userauth",
    b"\x32\0\0\0\x05alice\0\0\0\x0essh-connection\0\0\0\x04none",
];

// SERVICE_ACCEPT and USERAUTH_SUCCESS.
const LOGIN_FRAMES: usize = 2;

/// The host of most tests, "10.0.0.1", and its port.
pub const HOST: &str = "10.0.0.1";

pub const PORT: u32 = 80;

/// Lets everybody in.
#[derive(Drop)]
pub struct Welcoming;

impl AuthHandler for Welcoming {
    type Error = ();

    fn untold(&mut self, _by: Unwritten) -> Result<(), ()> {
        Ok(())
    }

    fn auth_none(&mut self, _user: &str) -> Result<Auth, ()> {
        Ok(Auth::Accept)
    }
}

/// How a gateway ends.
#[derive(Clone, Copy, Debug, PartialEq, Eq)]
pub enum End {
    Over,
    LinkFault,
    TargetFault,
    Limit,
    Other,
}

fn end_of(ended: Result<(), GatewayError<(), PlainKexError>>) -> End {
    match ended {
        Ok(()) => End::Over,
        Err(GatewayError::Run(RunError::LinkFault)) => End::LinkFault,
        Err(GatewayError::TargetFault) => End::TargetFault,
        Err(GatewayError::TurnLimit) => End::Limit,
        Err(_) => End::Other,
    }
}

fn push(inputs: &mut Inputs, payload: &'static [u8]) -> Result<(), WireError> {
    let kind = InputKind::Payload(Bytes::from_static(payload));
    inputs.push(Input { moment: 7, kind })
}

/// Adds a payload that is put together of these parts.
pub fn push_bytes(alloc: Global, inputs: &mut Inputs, parts: &[&[u8]]) -> Result<(), WireError> {
    let mut payload = Vec::new(alloc);
    for part in parts {
        payload.extend_from_slice(part)?;
    }
    let kind = InputKind::Payload(Bytes::copy_from_slice(alloc, payload.as_slice())?);
    inputs.push(Input { moment: 7, kind })
}

/// A login.
pub fn start(alloc: Global) -> Result<Inputs, WireError> {
    let mut inputs = Inputs::new(alloc);
    for payload in &LOGIN {
        push(&mut inputs, payload)?;
    }
    Ok(inputs)
}

/// A link that gives a login and then these payloads, and then the end.
pub fn link(alloc: Global, payloads: &[&'static [u8]]) -> Result<MemoryLink, WireError> {
    let mut inputs = start(alloc)?;
    for payload in payloads {
        push(&mut inputs, payload)?;
    }
    MemoryLink::new(alloc, inputs, Calls::new(alloc))
}

/// Runs a gateway over these three.
pub fn run<P: Policy, T: Targets>(
    alloc: Global,
    link: &mut MemoryLink,
    policy: &P,
    targets: &mut T,
    max_turns: u64,
) -> End {
    let mut welcoming = Welcoming;
    let mut kex = PlainKex::new(alloc, false);
    end_of(run_gateway(
        alloc,
        &Config::standard(),
        b"an id",
        b"SSH-2.0-peer",
        &mut welcoming,
        &TableVerifier::new(alloc),
        &mut kex,
        link,
        policy,
        targets,
        max_turns,
    ))
}

/// Whether these are the frames that went out behind the login, in order, and none besides.
pub fn are_sent(link: &MemoryLink, frames: &[&[u8]]) -> bool {
    let mut passed: usize = 0;
    for entry in link.trace() {
        if let TraceEntry::Sent(frame) = entry {
            if passed >= LOGIN_FRAMES {
                let Some(wanted) = frames.get(passed - LOGIN_FRAMES) else {
                    return false;
                };
                let (head, body) = frame.parts();
                if !wanted.starts_with(head) || wanted.get(head.len()..) != Some(body) {
                    return false;
                }
            }
            passed = passed.saturating_add(1);
        }
    }
    passed == frames.len().saturating_add(LOGIN_FRAMES)
}

/// A policy that allows the host, where it does.
pub fn policy(alloc: Global, allows: bool) -> Result<ListPolicy, WireError> {
    let mut policy = ListPolicy::new(alloc);
    if allows {
        policy.allow(Text::new(alloc, HOST)?, PORT)?;
    }
    Ok(policy)
}

/// Targets of which the host gives these bytes, where it can be reached, and whose call with this
/// number fails.
pub fn targets(
    alloc: Global,
    gives: Option<&'static [u8]>,
    fails: Option<u64>,
) -> Result<MemoryTargets, WireError> {
    let mut calls = Calls::new(alloc);
    if let Some(call) = fails {
        calls.push(call)?;
    }
    let mut targets = MemoryTargets::new(alloc, calls);
    if let Some(bytes) = gives {
        targets.add(Text::new(alloc, HOST)?, PORT, Bytes::from_static(bytes))?;
    }
    Ok(targets)
}

/// Whether exactly these bytes were written to the connection with this number.
pub fn is_written(calls: &[TargetCall], id: u64, bytes: &[u8]) -> bool {
    let mut left = bytes;
    for call in calls {
        if let TargetCall::Write {
            id: other,
            bytes: some,
            answer: Ok(()),
        } = call
        {
            if *other == id {
                let Some(rest) = left.strip_prefix(some.as_slice()) else {
                    return false;
                };
                left = rest;
            }
        }
    }
    left.is_empty()
}
