// What comes of one request of authentication.
use bytes::Bytes;

/// What a request of authentication means to the session.
#[derive(Clone, Copy, Debug, PartialEq, Eq)]
pub enum AuthVerdict {
    /// The user is authenticated.
    Accepted,
    /// The request was refused.
    Rejected {
        /// Whether it was a request of method none (RFC 4252 section 5.2).
        none_method: bool,
    },
    /// Authentication goes on with this reply.
    Continued,
}

/// The reply to a request of authentication, and what the request means.
#[derive(Debug, Drop)]
pub struct AuthStep {
    /// One payload: success, failure, or what the method goes on with.
    pub reply: Bytes,
    /// What the request means.
    pub verdict: AuthVerdict,
}
