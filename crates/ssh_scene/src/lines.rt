// The lines of a script.

use crate::answers::{
    DataVerdict, ForwardVerdict, InteractiveVerdict, OpenVerdict, RequestVerdict, Verdict,
};
use bytes::Bytes;
use ssh_keys::AcceptedSignature;
use ssh_link::{Command, OpenAnswer};
use ssh_wire::Text;

/// How a session is set up, and what its handler answers.
#[derive(Drop)]
pub(crate) enum Setting {
    /// The session id, of at most 2^32 - 1 bytes.
    Session(Bytes),
    /// After how many inputs the run stops.
    Inputs(u64),
    /// How many bytes a channel takes at first.
    Window(u32),
    /// How many bytes of data it takes at most in one message.
    Packet(u32),
    /// How long a rejection is held, in milliseconds.
    Reject(u64),
    /// How long the rejection of a first request of method none is held, in milliseconds.
    RejectInitial(u64),
    /// After how many rejected requests no more are read, and 0 for no such limit.
    Attempts(u64),
    /// How many keepalive requests may go unanswered, and 0 for no such limit.
    Keepalive(u64),
    /// After how many bytes that are sent keys are exchanged again.
    RekeyWrite(u64),
    /// After how many bytes that are received keys are exchanged again.
    RekeyRead(u64),
    /// One more signature that the verifier accepts.
    Sign(AcceptedSignature),
    /// One more answer to the requests of method none.
    AnswerNone(Verdict),
    /// One more answer to the requests of method password.
    AnswerPassword(Verdict),
    /// One more answer to the offers of keys.
    AnswerOffered(Verdict),
    /// One more answer to the requests that are signed by a key.
    AnswerPublickey(Verdict),
    /// One more answer to the requests that are signed by the key of a certificate.
    AnswerCertificate(Verdict),
    /// One more answer to a user of keyboard-interactive.
    AnswerInteractive(InteractiveVerdict),
    /// One more banner callback fails.
    FailBanner,
    /// The banner that is given where no banner callback fails; the last of these counts.
    Banner(Text),
    /// The answer to the channels that the peer opens; the last of these counts.
    AnswerOpen(OpenVerdict),
    /// The answer to data on a channel; the last of these counts.
    AnswerData(DataVerdict),
    /// The answer to requests on a channel; the last of these counts.
    AnswerRequest(RequestVerdict),
    /// The answer to forwards; the last of these counts.
    AnswerForward(ForwardVerdict),
}

/// What comes in.
#[derive(Drop)]
pub(crate) enum InputLine {
    /// From here on inputs come at this moment, in milliseconds.
    At(u64),
    /// The peer's payload.
    Recv(Bytes),
    /// A command from outside.
    Command(Command),
    /// The answer to an open of the peer from outside.
    Reply(OpenAnswer),
    /// Nothing came from the peer for a while: it may be asked for a sign of life.
    KeepaliveTick,
    /// Nothing came from the peer for too long.
    InactivityTick,
    /// It is time for new keys.
    RekeyTick,
    /// The peer is gone.
    End,
}

/// What one line of a script says.
#[derive(Drop)]
pub(crate) enum Line {
    /// Nothing: it is empty, or a comment.
    Passed,
    /// A setting, which stands before the first input line.
    Setting(Setting),
    /// An input, or its moment.
    Input(InputLine),
}
