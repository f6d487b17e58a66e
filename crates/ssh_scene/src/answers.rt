// What the handler of a script answers.

use ssh_wire::Text;

/// What a script answers to a request of authentication.
#[derive(Clone, Copy, Debug, PartialEq, Eq)]
pub enum Verdict {
    /// The user is let in.
    Accept,
    /// The request is refused.
    Reject,
    /// The handler answers an error.
    Fail,
}

/// What a script answers to a user of keyboard-interactive.
#[derive(Clone, Copy, Debug, PartialEq, Eq)]
pub enum InteractiveVerdict {
    /// What any other request could be answered.
    Plain(Verdict),
    /// The handler does not have the method.
    Unsupported,
    /// The user is prompted for a code, which is not shown.
    Ask,
}

/// What a script answers to the channels that the peer opens.
#[derive(Clone, Copy, Debug, PartialEq, Eq)]
pub enum OpenVerdict {
    /// They are accepted.
    Accept,
    /// They are refused as administratively prohibited.
    Reject,
    /// The callback leaves the answer to a later line.
    Hold,
}

/// What a script answers to data.
#[derive(Clone, Copy, Debug, PartialEq, Eq)]
pub enum DataVerdict {
    /// Nothing.
    Silent,
    /// The same data.
    Echo,
}

/// What a script answers to requests on a channel.
#[derive(Clone, Copy, Debug, PartialEq, Eq)]
pub enum RequestVerdict {
    /// They succeeded.
    Success,
    /// They failed.
    Failure,
    /// Nothing.
    Silent,
}

/// What a script answers where the peer asks that connections are forwarded to it, or no longer.
#[derive(Clone, Copy, Debug, PartialEq, Eq)]
pub enum ForwardVerdict {
    /// No.
    No,
    /// Yes, and at this port.
    Yes(u32),
}

/// The answers of a script that stand for a whole run.
#[derive(Clone, Copy)]
pub struct Standing {
    /// To all channels that the peer opens.
    pub opens: OpenVerdict,
    /// To data on a channel.
    pub incoming: DataVerdict,
    /// To requests on a channel.
    pub requests: RequestVerdict,
    /// To forwards.
    pub forwards: ForwardVerdict,
}

/// The answers of a script, each list in order.
#[derive(Drop)]
pub struct Answers {
    /// To requests of method none.
    pub none: Vec<Verdict>,
    /// To requests of method password.
    pub password: Vec<Verdict>,
    /// To offers of keys.
    pub offered: Vec<Verdict>,
    /// To requests that are signed by a key.
    pub publickey: Vec<Verdict>,
    /// To requests that are signed by the key of a certificate.
    pub certificate: Vec<Verdict>,
    /// To users of keyboard-interactive.
    pub interactive: Vec<InteractiveVerdict>,
    /// How many banner callbacks fail.
    pub failing_banners: u64,
    /// The banner that the later ones give.
    pub banner: Option<Text>,
    /// Those that stand for the whole run.
    pub standing: Standing,
}
