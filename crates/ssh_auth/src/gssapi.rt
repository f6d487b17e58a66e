// What a server answers in the steps of GSS-API.
use bytes::Bytes;
use ssh_wire::Text;

/// How a GSS-API exchange goes on (RFC 4462 section 3.4).
#[derive(Debug, Drop, PartialEq, Eq)]
pub enum GssapiStep {
    /// The peer is sent this token, and answers with one.
    Continue {
        /// The token for the peer.
        token: Bytes,
    },
    /// The exchange is over.
    Complete {
        /// The last token for the peer.
        token: Option<Bytes>,
        /// The integrity check of the request, where the exchange can make one.
        mic: Option<Bytes>,
    },
}

/// Why a GSS-API exchange failed.
#[derive(Debug, Drop, PartialEq, Eq)]
pub enum GssapiError {
    /// The status codes, with a message for the user (RFC 4462 section 3.8).
    Status {
        /// The error of the GSS-API (RFC 2743 section 1.2.1.1).
        major_status: u32,
        /// The mechanism's own code for it.
        minor_status: u32,
        /// What the user reads.
        message: Text,
    },
    /// A token that tells the peer of the error (RFC 4462 section 3.9).
    ErrorToken(Bytes),
}
