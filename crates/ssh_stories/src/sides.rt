// Sessions with what stands around them, and how what comes to one ends.
use crate::answering::{Answering, Plan, QUIET, Tired};
use bytes::Bytes;
use ssh_handler::Config;
use ssh_keys::TableVerifier;
use ssh_link::{Calls, Frame, Input, InputKind, Inputs, MemoryLink, PlainKex, PlainKexError};
use ssh_session::{Flow, RunError, Session, run_stream};
use ssh_wire::{ChannelId, WireError};
use std::alloc::Global;

/// SERVICE_REQUEST for the service ssh-userauth.
pub const SERVICE: &[u8] = b"\x05\0\0\0\x0cssh-userauth";

/// SERVICE_ACCEPT of it.
pub const ACCEPT: &[u8] = b"\x06\0\0\0\x0cssh-userauth";

/// USERAUTH_REQUEST of alice by method password.
pub const PASSWORD: &[u8] =
    b"\x32\0\0\0\x05alice\0\0\0\x0essh-connection\0\0\0\x08password\0\0\0\0\x05guest";

/// Both requests, one behind the other.
pub(crate) const LOGIN: [&[u8]; 2] = [SERVICE, PASSWORD];

/// How an input or a run ends.
#[derive(Clone, Copy, PartialEq, Eq)]
pub enum End {
    GoesOn,
    Over,
    Encoding,
    Inconsistent,
    KeepaliveTimeout,
    InactivityTimeout,
    Kex,
    LinkFault,
    Tired,
    /// The handler may not be called with the line of the peer.
    Unsuited,
    Otherwise,
}

/// A session with its outside.
#[derive(Drop)]
pub(crate) struct Side {
    pub(crate) alloc: Global,
    pub(crate) session: Session,
    pub(crate) handler: Answering,
    verifier: TableVerifier,
    pub(crate) kex: PlainKex,
    pub(crate) link: MemoryLink,
}

impl Side {
    /// Before the first input. `repeatable` says whether this side can begin an exchange of keys.
    pub(crate) fn new(
        alloc: Global,
        config: &Config,
        repeatable: bool,
        plan: Plan,
    ) -> Result<Side, WireError> {
        let link = MemoryLink::new(alloc, Inputs::new(alloc), Calls::new(alloc))?;
        let session = Session::new(alloc, config, b"", b"SSH-2.0-test");
        match session {
            Ok(session) => Ok(Side {
                alloc,
                session,
                handler: Answering::new(alloc, plan),
                verifier: TableVerifier::new(alloc),
                kex: PlainKex::new(alloc, repeatable),
                link,
            }),
            Err(error) => {
                drop(link);
                Err(error)
            }
        }
    }
}

/// A payload that comes.
pub(crate) fn payload(alloc: Global, bytes: &[u8]) -> Result<InputKind, WireError> {
    Ok(InputKind::Payload(Bytes::copy_from_slice(alloc, bytes)?))
}

fn cause(error: &RunError<Tired, PlainKexError>) -> End {
    match error {
        RunError::Encoding(_) => End::Encoding,
        RunError::Inconsistent => End::Inconsistent,
        RunError::KeepaliveTimeout => End::KeepaliveTimeout,
        RunError::InactivityTimeout => End::InactivityTimeout,
        RunError::Kex(_) => End::Kex,
        RunError::LinkFault => End::LinkFault,
        RunError::Handler(_) => End::Tired,
        _ => End::Otherwise,
    }
}

/// An input comes, and ends so.
pub(crate) fn give(side: &mut Side, kind: InputKind) -> End {
    // The handler counts on a line that is at least so long.
    if side.session.remote_sshid().len() < 8 {
        drop(kind);
        return End::Unsuited;
    }
    let input = Input { moment: 0, kind };
    let result = side.session.step(
        &mut side.handler,
        &side.verifier,
        &mut side.kex,
        &mut side.link,
        input,
    );
    let end = match &result {
        Ok(Flow::Continue) => End::GoesOn,
        Ok(Flow::Ended) => End::Over,
        Err(error) => cause(error),
    };
    drop(result);
    end
}

/// Whether it goes on with each request of the login.
pub(crate) fn is_logged_in(side: &mut Side) -> Result<bool, WireError> {
    for bytes in LOGIN {
        let request = payload(side.alloc, bytes)?;
        if give(side, request) != End::GoesOn {
            return Ok(false);
        }
    }
    Ok(true)
}

/// A run over the link, whose peer says what its software is, and how it ends.
pub(crate) fn run_over(alloc: Global, handler: &mut Answering, link: &mut MemoryLink) -> End {
    let config = Config::standard();
    let verifier = TableVerifier::new(alloc);
    let name = b"SSH-2.0-PuTTY";
    let mut kex = PlainKex::new(alloc, false);
    let answer = run_stream(
        alloc, &config, b"", name, handler, &verifier, &mut kex, link, 100,
    );
    let end = match &answer {
        Ok(()) => End::Over,
        Err(error) => cause(error),
    };
    drop(answer);
    end
}

/// Whether this frame has this channel and this payload.
pub(crate) fn is_sent(frame: &Frame, channel: Option<ChannelId>, payload: &[u8]) -> bool {
    let (head, body) = frame.parts();
    payload.strip_prefix(head) == Some(body) && frame.channel() == channel
}

// Whether a session of its own takes this payload with such a handler.
fn takes(alloc: Global, handler: &mut Answering, link: &mut MemoryLink, payload: Bytes) -> bool {
    let config = Config::standard();
    let Ok(mut session) = Session::new(alloc, &config, b"", b"SSH-2.0-dropbear") else {
        return false;
    };
    let verifier = TableVerifier::new(alloc);
    let mut kex = PlainKex::new(alloc, false);
    let kind = InputKind::Payload(payload);
    let answer = session.step(
        handler,
        &verifier,
        &mut kex,
        link,
        Input { moment: 0, kind },
    );
    drop(session);
    let goes_on = matches!(&answer, Ok(Flow::Continue));
    drop(answer);
    goes_on
}

/// Whether a session takes a request for the service. Its peer's line is that of its making, so
/// the handler is called without a look at it.
pub fn takes_a_request(alloc: Global) -> bool {
    match MemoryLink::new(alloc, Inputs::new(alloc), Calls::new(alloc)) {
        Ok(mut link) => {
            let mut handler = Answering::new(alloc, QUIET);
            let request = Bytes::from_static(SERVICE);
            let goes_on = takes(alloc, &mut handler, &mut link, request);
            drop(handler);
            drop(link);
            goes_on
        }
        Err(_) => false,
    }
}
