// Opens, confirmations and refusals (RFC 4254 section 5.1).
use ssh_wire::{
    ChannelOpenConfirmation, ChannelType, LayoutError, OpenChannelMessage, Reader,
    StreamLocalChannelInfo, TcpChannelInfo, Text, WireError,
};
use std::alloc::Global;
use std::test::*;

/// The peer's channel 7, a window of 1048576 and a packet size of 32768.
const NUMBERS: &[u8] = b"\0\0\0\x07\0\x10\0\0\0\0\x80\0";

const INCONSISTENT: LayoutError = LayoutError::Inconsistent;

const SHORT: LayoutError = LayoutError::Wire(WireError::Short);

const NOT_UTF8: LayoutError = LayoutError::Wire(WireError::NotUtf8);

/// The types of channels.
#[derive(Clone, Copy)]
enum Kind {
    Session,
    X11,
    Direct,
    Forwarded,
    DirectSocket,
    ForwardedSocket,
    Agent,
    Unknown,
}

// Both ends of a connection, as `tcpip` has them.
const ENDS: &[u8] = b"\0\0\0\x03far\0\0\0\x50\0\0\0\x04here\0\0\x01\0";

// One end of it.
const HERE: &[u8] = b"\0\0\0\x04here\0\0\x17\x70";

// Of an open: its type's name with its length, and behind the numbers above the type's own fields.
type Row = (Kind, &'static [u8], &'static [u8]);

static ROWS: [Row; 8] = [
    (Kind::Session, b"\0\0\0\x07session", b""),
    (Kind::X11, b"\0\0\0\x03x11", HERE),
    (Kind::Direct, b"\0\0\0\x0cdirect-tcpip", ENDS),
    (Kind::Forwarded, b"\0\0\0\x0fforwarded-tcpip", ENDS),
    (
        Kind::DirectSocket,
        b"\0\0\0\x1edirect-streamlocal@openssh.com",
        b"\0\0\0\x02/s\0\0\0\0\0\0\0\0",
    ),
    (
        Kind::ForwardedSocket,
        b"\0\0\0\x21forwarded-streamlocal@openssh.com",
        b"\0\0\0\x02/s\0\0\0\0",
    ),
    (Kind::Agent, b"\0\0\0\x16auth-agent@openssh.com", b""),
    (Kind::Unknown, b"\0\0\0\x13unknown@example.com", b"opaque"),
];

fn tcpip(alloc: Global) -> Result<TcpChannelInfo, WireError> {
    Ok(TcpChannelInfo {
        host_to_connect: Text::new(alloc, "far")?,
        port_to_connect: 80,
        originator_address: Text::new(alloc, "here")?,
        originator_port: 256,
    })
}

fn socket(alloc: Global) -> Result<StreamLocalChannelInfo, WireError> {
    Ok(StreamLocalChannelInfo {
        socket_path: Text::new(alloc, "/s")?,
    })
}

fn type_of(alloc: Global, kind: Kind) -> Result<ChannelType, WireError> {
    Ok(match kind {
        Kind::Session => ChannelType::Session,
        Kind::X11 => ChannelType::X11 {
            originator_address: Text::new(alloc, "here")?,
            originator_port: 6000,
        },
        Kind::Direct => ChannelType::DirectTcpip(tcpip(alloc)?),
        Kind::Forwarded => ChannelType::ForwardedTcpIp(tcpip(alloc)?),
        Kind::DirectSocket => ChannelType::DirectStreamLocal(socket(alloc)?),
        Kind::ForwardedSocket => ChannelType::ForwardedStreamLocal(socket(alloc)?),
        Kind::Agent => ChannelType::AgentForward,
        Kind::Unknown => ChannelType::Unknown {
            typ: Text::new(alloc, "unknown@example.com")?,
        },
    })
}

fn bytes_of(alloc: Global, row: Row) -> Result<Vec<u8>, WireError> {
    let mut bytes = Vec::new(alloc);
    bytes.extend_from_slice(row.1)?;
    bytes.extend_from_slice(NUMBERS)?;
    bytes.extend_from_slice(row.2)?;
    Ok(bytes)
}

// Whether the open is read as what it is; of one of no known type its own fields are left.
fn is_read(alloc: Global, row: Row) -> Result<bool, WireError> {
    let (kind, _, own) = row;
    let bytes = bytes_of(alloc, row)?;
    let wanted = OpenChannelMessage {
        typ: type_of(alloc, kind)?,
        recipient_channel: 7,
        recipient_window_size: 1048576,
        recipient_maximum_packet_size: 32768,
    };
    let mut r = Reader::new(bytes.as_slice());
    let read = OpenChannelMessage::parse(alloc, &mut r);
    let same = match &read {
        Ok(message) => *message == wanted,
        Err(_) => false,
    };
    drop(read);
    drop(wanted);
    let rest = match kind {
        Kind::Unknown => own,
        _ => b"",
    };
    Ok(same && r.rest() == rest)
}

#[test]
fn each_known_type_is_read_whole_and_of_another_the_numbers(rt: HostRuntime) {
    for row in &ROWS {
        assert!(rt; is_read(rt.alloc(), *row) == Ok(true));
    }
}

// What an open is not, its bytes, and why it is refused.
static REFUSED: [(&str, &[u8], LayoutError); 5] = [
    (
        "a packet size of 0 before fields cut short",
        b"\0\0\0\x03x11\0\0\0\0\0\x10\0\0\0\0\0\0\xff",
        INCONSISTENT,
    ),
    (
        "a name that is no text before a packet size of 0",
        b"\0\0\0\x03x\xff1\0\0\0\0\0\x10\0\0\0\0\0\0",
        NOT_UTF8,
    ),
    (
        "a packet size cut short",
        b"\0\0\0\x07session\0\0\0\0\0\x10\0\0\0\0\x80",
        SHORT,
    ),
    (
        "a port cut short",
        b"\0\0\0\x03x11\0\0\0\0\0\x10\0\0\0\0\x80\0\0\0\0\x04here\0\0\x17",
        SHORT,
    ),
    (
        "an address that is no text",
        b"\0\0\0\x03x11\0\0\0\0\0\x10\0\0\0\0\x80\0\0\0\0\x01\xc3\0\0\0\0",
        NOT_UTF8,
    ),
];

// Why these are no open, and how many bytes are read.
fn refused(alloc: Global, bytes: &[u8]) -> (Option<LayoutError>, usize) {
    let mut r = Reader::new(bytes);
    let why = OpenChannelMessage::parse(alloc, &mut r).err();
    (why, r.position())
}

#[test]
fn what_is_no_open_is_refused_at_the_first_field_that_does_not_fit(rt: HostRuntime) {
    for (shows, bytes, why) in &REFUSED {
        assert!(rt; refused(rt.alloc(), *bytes) == (Some(*why), 0), "{shows}");
    }
}

const CONFIRMATION: ChannelOpenConfirmation = ChannelOpenConfirmation {
    recipient_channel: 0,
    sender_channel: 1,
    initial_window_size: 1048576,
    maximum_packet_size: 32768,
};

// What bytes are, the bytes, what is read of them, and how many of them are read.
static CONFIRMED: [(
    &str,
    &[u8],
    Result<ChannelOpenConfirmation, LayoutError>,
    usize,
); 3] = [
    (
        "four numbers",
        b"\0\0\0\0\0\0\0\x01\0\x10\0\0\0\0\x80\0",
        Ok(CONFIRMATION),
        16,
    ),
    (
        "a byte after them",
        b"\0\0\0\0\0\0\0\x01\0\x10\0\0\0\0\x80\0\xff",
        Ok(CONFIRMATION),
        16,
    ),
    (
        "a packet size cut short",
        b"\0\0\0\0\0\0\0\x01\0\x10\0\0\0\0\x80",
        Err(SHORT),
        0,
    ),
];

fn confirmed(bytes: &[u8]) -> (Result<ChannelOpenConfirmation, LayoutError>, usize) {
    let mut r = Reader::new(bytes);
    let read = ChannelOpenConfirmation::parse(&mut r);
    (read, r.position())
}

#[test]
fn a_confirmation_has_a_packet_size_and_its_end_is_not_tested(rt: HostRuntime) {
    for (shows, bytes, read, position) in &CONFIRMED {
        assert!(rt; confirmed(*bytes) == (*read, *position), "{shows}");
    }
}

// Puts the refusal of an open of the peer's channel 7, with a text or for its type.
fn put_refusal(out: &mut Vec<u8>, text: Option<&[u8]>) -> Result<(), WireError> {
    let open = OpenChannelMessage {
        typ: ChannelType::Session,
        recipient_channel: 7,
        recipient_window_size: 0,
        recipient_maximum_packet_size: 1,
    };
    let put = match text {
        Some(text) => open.fail(out, 1, text),
        None => open.unknown_type(out),
    };
    drop(open);
    put
}

fn is_put(alloc: Global, text: Option<&[u8]>, wanted: &[u8]) -> bool {
    let mut out = Vec::new(alloc);
    let put = put_refusal(&mut out, text);
    put == Ok(()) && out.as_slice() == wanted
}

#[test]
fn a_refusal_goes_to_the_channel_of_the_peer(rt: HostRuntime) {
    let wanted = b"\x5c\0\0\0\x07\0\0\0\x01\0\0\0\x07not now\0\0\0\x02en";
    assert!(rt; is_put(rt.alloc(), Some(b"not now"), wanted));
    let wanted = b"\x5c\0\0\0\x07\0\0\0\x03\0\0\0\x14Unknown channel type\0\0\0\x02en";
    assert!(rt; is_put(rt.alloc(), None, wanted));
}
