// What a call answers that does not wait.
use bytes::Bytes;
use ssh_hub::HandleError;

/// What a call answers that does not wait.
#[derive(Debug, Drop)]
pub enum Poll<T> {
    /// It is done, and this came of it.
    Ready(T),
    /// It is not done: it can be called again later.
    Pending(Why),
}

/// Why a call is not done.
#[derive(Clone, Copy, Debug, PartialEq, Eq)]
pub enum Why {
    /// The peer's window of the channel has no byte left (RFC 4254 section 5.2).
    WindowEmpty,
    /// As many commands wait for the session as the hub holds.
    InboxFull,
    /// No message waits on the channel.
    NothingThere,
}

/// Why bytes were not put. They come back.
#[derive(Debug, Drop)]
pub struct PutError {
    /// The bytes.
    pub bytes: Bytes,
    /// Why they were not put.
    pub cause: HandleError,
}
