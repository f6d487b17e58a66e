// Connections, by what comes to them and what is to go out.
use bytes::Bytes;
use ssh_auth::{AskedMethod, Auth, Call};
use ssh_embed::{Connection, Given, OpenRule, Rules};
use ssh_handler::Config;
use ssh_link::{Command, Frame, Input, InputKind, OpenAnswer, TraceEntry};
use ssh_session::Flow;
use ssh_wire::{ChannelId, WireError};
use std::alloc::Global;
use std::test::*;

/// What comes, what its owner says with it, and the frames that go out for it.
#[derive(Clone, Copy)]
struct Turn {
    payload: &'static [u8],
    /// Whether its owner lets the user in.
    accepts: bool,
    /// Whether its owner vouches for the signature that it shows.
    vouches: bool,
    /// Whether the new keys are in use behind it.
    keys_in_use: bool,
    frames: &'static [&'static [u8]],
}

/// SERVICE_REQUEST, and SERVICE_ACCEPT.
const SERVICE: Turn = Turn {
    payload: b"\x05\0\0\0\x0cssh-userauth",
    accepts: false,
    vouches: false,
    keys_in_use: false,
    frames: &[b"\x06\0\0\0\x0cssh-userauth"],
};

/// USERAUTH_REQUEST of alice by a password, and USERAUTH_SUCCESS.
const PASSWORD: Turn = Turn {
    payload: b"\x32\0\0\0\x05alice\0\0\0\x0essh-connection\0\0\0\x08password\0\0\0\0\x05guest",
    accepts: true,
    frames: &[b"\x34"],
    ..SERVICE
};

/// The same by an Ed25519 key with a signature.
const SIGNED: &[u8] = b"\x32\0\0\0\x05alice\0\0\0\x0essh-connection\0\0\0\x09publickey\x01\
    \0\0\0\x0bssh-ed25519\0\0\0\x13\0\0\0\x0bssh-ed25519\0\0\0\0\
    \0\0\0\x17\0\0\0\x0bssh-ed25519\0\0\0\x04sign";

/// CHANNEL_OPEN of a session, and its confirmation.
const SESSION: Turn = Turn {
    payload: b"\x5a\0\0\0\x07session\0\0\0\x07\0\0\x10\0\0\0\x04\0",
    frames: &[b"\x5b\0\0\0\x07\0\0\0\x02\0\x20\0\0\0\0\x80\0"],
    ..SERVICE
};

/// CHANNEL_OPEN of a connection to a host.
const DIRECT: Turn = Turn {
    payload: b"\x5a\0\0\0\x0cdirect-tcpip\0\0\0\x08\0\0\x10\0\0\0\x04\0\
        \0\0\0\x04host\0\0\0\x50\0\0\0\x02me\0\0\0\x09",
    frames: &[],
    ..SERVICE
};

/// KEXINIT of the peer, and what stands for this side's.
const KEXINIT: Turn = Turn {
    payload: b"\x14",
    frames: &[b"\x14"],
    ..SERVICE
};

/// NEWKEYS of the peer, and what was held.
const NEWKEYS: Turn = Turn {
    payload: b"\x15",
    keys_in_use: true,
    frames: &[b"\x5e\0\0\0\x07\0\0\0\x04data"],
    ..SERVICE
};

static BY_PASSWORD: [Turn; 3] = [SERVICE, PASSWORD, SESSION];

static BY_KEY: [Turn; 2] = [
    SERVICE,
    Turn {
        payload: SIGNED,
        accepts: true,
        vouches: true,
        frames: &[b"\x34"],
        ..SERVICE
    },
];

// Without the owner's word for the signature the user is refused.
static BY_NO_SIGNATURE: [Turn; 2] = [
    SERVICE,
    Turn {
        payload: SIGNED,
        accepts: true,
        frames: &[
            b"\x33\0\0\0\x36\
            none,password,publickey,hostbased,keyboard-interactive\0",
        ],
        ..SERVICE
    },
];

static TO_A_HOST: [Turn; 3] = [SERVICE, PASSWORD, DIRECT];

static BEGUN: [Turn; 1] = [KEXINIT];

static ENDED: [Turn; 1] = [NEWKEYS];

/// Whether the frame has this payload.
fn is_of(frame: &Frame, payload: &[u8]) -> bool {
    let (head, body) = frame.parts();
    payload.strip_prefix(head) == Some(body)
}

/// Takes out all that waits; whether the frames among it are these.
fn goes_out(connection: &mut Connection, frames: &[&[u8]]) -> bool {
    let mut count = 0;
    let mut same = true;
    for _ in 0..u32::MAX {
        let Some(entry) = connection.take_out() else {
            break;
        };
        if let TraceEntry::Sent(frame) = &entry {
            same = same && frames.get(count).is_some_and(|wanted| is_of(frame, wanted));
            count = count.saturating_add(1);
        }
        drop(entry);
    }
    same && count == frames.len()
}

/// Feeds a payload as its turn says; whether the connection goes on, and its frames go out.
fn is_served(alloc: Global, connection: &mut Connection, turn: &Turn) -> Result<bool, WireError> {
    let mut given = Given::nothing();
    if turn.accepts {
        given.answer = Auth::Accept;
    }
    given.keys_in_use = turn.keys_in_use;
    let kind = InputKind::Payload(Bytes::copy_from_slice(alloc, turn.payload)?);
    if turn.vouches && connection.vouch(1000, turn.payload) != Ok(true) {
        drop(given);
        drop(kind);
        return Ok(false);
    }
    let went = connection.take(Input { moment: 1000, kind }, given);
    let goes_on = matches!(went, Ok(Flow::Continue));
    drop(went);
    Ok(goes_on && goes_out(connection, turn.frames))
}

/// Whether a connection that keeps direct-tcpip serves these turns so; it is left behind them.
fn serves(alloc: Global, connection: &mut Connection, turns: &[Turn]) -> Result<bool, WireError> {
    for turn in turns {
        if !is_served(alloc, connection, turn)? {
            return Ok(false);
        }
    }
    Ok(true)
}

/// A connection before its first input.
fn opened(alloc: Global) -> Result<Connection, WireError> {
    let mut rules = Rules::standard();
    rules.direct_tcpip = OpenRule::Keep;
    Connection::new(
        alloc,
        &Config::standard(),
        rules,
        b"id",
        b"SSH-2.0-test",
        true,
    )
}

/// Whether a connection serves these turns so from its first input on.
fn begins(alloc: Global, turns: &[Turn]) -> Result<bool, WireError> {
    let mut connection = opened(alloc)?;
    let served = serves(alloc, &mut connection, turns);
    drop(connection);
    served
}

/// A password, or a key whose signature the owner vouches for, lets a user in; a key without that
/// does not.
#[test]
fn users_are_let_in(rt: HostRuntime) {
    assert!(rt; begins(rt.alloc(), &BY_PASSWORD) == Ok(true));
    assert!(rt; begins(rt.alloc(), &BY_KEY) == Ok(true));
    assert!(rt; begins(rt.alloc(), &BY_NO_SIGNATURE) == Ok(true));
}

/// Whether the password is told before it is served.
fn tells_the_password(alloc: Global) -> Result<bool, WireError> {
    let mut connection = opened(alloc)?;
    let served = serves(alloc, &mut connection, &[SERVICE]);
    let asked = connection.question(1000, PASSWORD.payload);
    let told = match &asked {
        Ok(Some(asked)) => match &asked.method {
            AskedMethod::Password { password } => asked.user == "alice" && *password == "guest",
            _ => false,
        },
        _ => false,
    };
    drop(asked);
    drop(connection);
    Ok(served? && told)
}

#[test]
fn questions_are_told(rt: HostRuntime) {
    assert!(rt; tells_the_password(rt.alloc()) == Ok(true));
}

/// Takes a command or an answer of its owner; whether the connection goes on, and these go out.
fn does(connection: &mut Connection, kind: InputKind, frames: &[&[u8]]) -> bool {
    let went = connection.take(Input { moment: 1000, kind }, Given::nothing());
    let goes_on = matches!(went, Ok(Flow::Continue));
    drop(went);
    goes_on && goes_out(connection, frames)
}

/// Whether an open that is kept is told as a call, and answered by its owner.
fn answers_later(alloc: Global) -> Result<bool, WireError> {
    let mut connection = opened(alloc)?;
    let served = serves(alloc, &mut connection, &TO_A_HOST);
    let told = match connection.calls() {
        [
            Call::ChannelOpenDirectTcpip {
                port_to_connect,
                ..
            },
        ] => *port_to_connect == 80,
        _ => false,
    };
    let answer = OpenAnswer {
        channel: ChannelId(2),
        rejection: None,
        texts: None,
    };
    let answered = does(
        &mut connection,
        InputKind::OpenReply(1, answer),
        &[b"\x5b\0\0\0\x08\0\0\0\x02\0\x20\0\0\0\0\x80\0"],
    );
    drop(connection);
    Ok(served? && told && answered)
}

#[test]
fn opens_are_answered_later(rt: HostRuntime) {
    assert!(rt; answers_later(rt.alloc()) == Ok(true));
}

/// Whether data that are sent in an exchange of keys go out behind it.
fn holds_in_an_exchange(alloc: Global) -> Result<bool, WireError> {
    let mut connection = opened(alloc)?;
    let bytes = Bytes::copy_from_slice(alloc, b"data");
    let begun = serves(alloc, &mut connection, &BY_PASSWORD)?
        && serves(alloc, &mut connection, &BEGUN)?;
    let held = !connection.commands_wanted()
        && match bytes {
            Ok(bytes) => {
                let command = Command::Data {
                    channel: ChannelId(2),
                    bytes,
                };
                does(&mut connection, InputKind::Command(1, command), &[])
            }
            Err(_) => false,
        };
    let ended = serves(alloc, &mut connection, &ENDED);
    drop(connection);
    Ok(begun && held && ended?)
}

#[test]
fn frames_are_held_in_an_exchange(rt: HostRuntime) {
    assert!(rt; holds_in_an_exchange(rt.alloc()) == Ok(true));
}
