// How a request came out.
ghost use Rattle.std.specs.Prelude.{◌≡◌};
ghost use Rattle.ssh_sftp_core.specs.declared.status.Status.TheVariants.{BadMessage};
ghost use Rattle.ssh_sftp_core.specs.Statuses.{status_code, status_message};

use ssh_wire::WireError;

/// How a request came out (draft-ietf-secsh-filexfer-02 section 7).
#[derive(Clone, Copy, Debug, PartialEq, Eq)]
pub enum Status {
    /// It was done.
    Ok = 0,
    /// The file has no byte there.
    Eof = 1,
    /// There is no such file.
    NoSuchFile = 2,
    /// It cannot be done.
    Failure = 4,
    /// The body does not fit the layout of its type.
    BadMessage = 5,
    /// The server does not know the type.
    Unsupported = 8,
}

impl Status {
    /// The code on the wire.
    pub fn code(self) -> u32
        ensures { result ≡ status_code self }
    {
        self as u32
    }

    /// The outcome in words, for the message that goes to the client.
    pub fn message(self) -> &'static str
        ensures { result.now ≡ status_message self }
    {
        match self {
            Status::Ok => "ok",
            Status::Eof => "eof",
            Status::NoSuchFile => "no such file",
            Status::Failure => "failure",
            Status::BadMessage => "bad message",
            Status::Unsupported => "unsupported",
        }
    }
}

/// A field that does not fit, or bytes after the last, make a bad message.
impl From<WireError> for Status {
    ghost from_gives = { λ _ status. status ≡ BadMessage };

    fn from(_: WireError) -> Status {
        Status::BadMessage
    }
}
