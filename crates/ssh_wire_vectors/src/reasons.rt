// The reasons not to open a channel (RFC 4254 section 5.1), and the codes of those to end a
// connection (RFC 4250 section 4.2.2).
use ssh_wire::{ChannelOpenFailure, Disconnect};
use std::test::*;

// Codes, the reason of each, and its words.
static REASONS: [(u32, Option<ChannelOpenFailure>, &str); 7] = [
    (
        1,
        Some(ChannelOpenFailure::AdministrativelyProhibited),
        "administratively prohibited",
    ),
    (2, Some(ChannelOpenFailure::ConnectFailed), "connect failed"),
    (
        3,
        Some(ChannelOpenFailure::UnknownChannelType),
        "unknown channel type",
    ),
    (
        4,
        Some(ChannelOpenFailure::ResourceShortage),
        "resource shortage",
    ),
    (0, None, ""),
    (5, None, ""),
    (u32::MAX, None, ""),
];

fn is_so(code: u32, reason: Option<ChannelOpenFailure>, words: &str) -> bool {
    let own = match reason {
        Some(reason) => (reason.code(), reason.description()),
        None => (code, words),
    };
    own == (code, words) && ChannelOpenFailure::from_u32(code) == reason
}

#[test]
fn a_reason_has_its_code_and_its_words(rt: HostRuntime) {
    for (code, reason, words) in &REASONS {
        assert!(rt; is_so(*code, *reason, *words), "{code}");
    }
}

static CODES: [(Disconnect, u32); 15] = [
    (Disconnect::HostNotAllowedToConnect, 1),
    (Disconnect::ProtocolError, 2),
    (Disconnect::KeyExchangeFailed, 3),
    (Disconnect::Reserved, 4),
    (Disconnect::MACError, 5),
    (Disconnect::CompressionError, 6),
    (Disconnect::ServiceNotAvailable, 7),
    (Disconnect::ProtocolVersionNotSupported, 8),
    (Disconnect::HostKeyNotVerifiable, 9),
    (Disconnect::ConnectionLost, 10),
    (Disconnect::ByApplication, 11),
    (Disconnect::TooManyConnections, 12),
    (Disconnect::AuthCancelledByUser, 13),
    (Disconnect::NoMoreAuthMethodsAvailable, 14),
    (Disconnect::IllegalUserName, 15),
];

#[test]
fn a_reason_has_the_code_that_the_standard_gives_it(rt: HostRuntime) {
    for (reason, code) in &CODES {
        assert!(rt; reason.code() == *code, "{code}");
    }
}
