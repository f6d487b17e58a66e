// What goes out to the peer, and what comes in.
ghost use Rattle.std.specs.Prelude.{◌≡◌, ◌≤◌, ◌-◌, ◌+◌, ◌^◌, ◌++◌, None, Some, IfOk, IfErr, IsOk};
ghost use Rattle.std.specs.Prelude.{bytes_eq, length, take, drop};
ghost use Rattle.ssh_wire.specs.declared.error.WireError.TheVariants.{NoMemory};
ghost use Rattle.ssh_link.specs.Frames.{channel_data, channel_extended_data, head_of, body_of};
ghost use Rattle.ssh_link.specs.Asked.{is_asked};
ghost use Rattle.ssh_link.specs.Supply.{is_reply};

use crate::{Command, OpenAnswer};
use bytes::Bytes;
use ssh_wire::message::{CHANNEL_DATA, CHANNEL_EXTENDED_DATA};
use ssh_wire::{ChannelId, WireError};
use std::marker::Model;

/// How many bytes a frame has room for in place: as many as stand before the data of a
/// CHANNEL_EXTENDED_DATA.
const ROOM: usize = 13;

/// How many bytes stand before the data of a CHANNEL_DATA.
const BEFORE_DATA: usize = 9;

/// A payload for the peer (RFC 4253 section 6: what one binary packet carries), in two parts: a
/// head of at most 13 bytes, and a body behind it, which may share its bytes. Of a CHANNEL_DATA the
/// body is the data, and so of a CHANNEL_EXTENDED_DATA; of any other message the head has the first
/// 13 bytes, or the whole. A clause sees `payload`, the message from its number on; `hold_until`,
/// the moment before which it is not to go out, in milliseconds since 1970; and `channel`, this
/// side's number of the channel that it was written for (for the messages 90 to 100 alone).
#[derive(Debug, Drop)]
pub struct Frame {
    // The first bytes of the payload, and zeros.
    in_place: [u8; ROOM],
    // How many of them there are.
    count: usize,
    // The rest of the payload.
    shared: Bytes,
    hold_until: Option<u64>,
    channel: Option<ChannelId>,
}

impl Model for Frame {
    ghost use Rattle.std.specs.Prelude.{◌≤◌, ◌++◌, take};
    ghost use Rattle.ssh_link.specs.Frames.{Frame, IsParted};

    ghost Value = { Frame };

    ghost view = { λ f. record {
      payload = take f.count f.in_place ++ f.shared;
      hold_until =
          f.hold_until;
      channel = f.channel;
    } };

    ghost invariant = { λ f. (f.count ≤ 13) × IsParted (take f.count f.in_place) f.shared };
}

// These bytes one after another, and zeros.
fn in_place(front: &[u8], back: &[u8]) -> [u8; ROOM]
    requires { length front.now + length back.now ≤ 13 }
    ensures { take (length front.now + length back.now) result ≡ front.now ++ back.now }
{
    let mut bytes = [0; ROOM];
    let (first, rest) = bytes.split_at_mut(front.len());
    first.copy_from_slice(front);
    let (second, _) = rest.split_at_mut(back.len());
    second.copy_from_slice(back);
    bytes
}

// The head and the body of a payload.
fn cut(payload: &[u8]) -> (&[u8], &[u8])
    ensures head { result.0.now ≡ head_of payload.now }
    ensures body { result.1.now ≡ body_of payload.now }
{
    let at = match payload.first() {
        Some(&CHANNEL_DATA) => BEFORE_DATA,
        _ => ROOM,
    };
    match payload.split_at_checked(at) {
        Some(parts) => parts,
        None => (payload, &[]),
    }
}

impl Frame {
    /// A frame of this whole payload. Takes no memory.
    pub fn new(payload: Bytes, hold_until: Option<u64>, channel: Option<ChannelId>) -> Frame
        ensures { result ≡ record {
          payload = payload;
          hold_until = hold_until;
          channel = channel;
        } }
    {
        Frame {
            in_place: [0; ROOM],
            count: 0,
            shared: payload,
            hold_until,
            channel,
        }
    }

    /// A frame of a payload that has at most 13 bytes. Takes no memory.
    pub fn short(payload: &[u8], hold_until: Option<u64>, channel: Option<ChannelId>) -> Frame
        requires { length payload.now ≤ 13 }
        ensures { result ≡ record {
          payload = payload.now;
          hold_until = hold_until;
          channel =
              channel;
        } }
    {
        Frame {
            in_place: in_place(payload, &[]),
            count: payload.len(),
            shared: Bytes::new(),
            hold_until,
            channel,
        }
    }

    /// CHANNEL_DATA (RFC 4254 section 5.2) on this side's channel `channel`, which the peer calls
    /// `peer`. The frame shares the bytes, and may go out at once. Takes no memory.
    pub fn data(channel: ChannelId, peer: u32, bytes: Bytes) -> Frame
        requires { length bytes ≤ 2 ^ 32 - 14 }
        ensures { result ≡ record {
          payload = channel_data peer bytes;
          hold_until = None;
          channel =
              Some channel;
        } }
    {
        let [a, b, c, d] = peer.to_be_bytes();
        let [e, f, g, h] = (bytes.len() as u32).to_be_bytes();
        Frame {
            in_place: [CHANNEL_DATA, a, b, c, d, e, f, g, h, 0, 0, 0, 0],
            count: BEFORE_DATA,
            shared: bytes,
            hold_until: None,
            channel: Some(channel),
        }
    }

    /// CHANNEL_EXTENDED_DATA (RFC 4254 section 5.2) with the data type code `ext` on this side's
    /// channel `channel`, which the peer calls `peer`. The frame shares the bytes, and may go out
    /// at once. Takes no memory.
    pub fn extended(channel: ChannelId, peer: u32, ext: u32, bytes: Bytes) -> Frame
        requires { length bytes ≤ 2 ^ 32 - 14 }
        ensures { result ≡ record {
          payload = channel_extended_data peer ext bytes;
          hold_until =
              None;
          channel = Some channel;
        } }
    {
        let [a, b, c, d] = peer.to_be_bytes();
        let [e, f, g, h] = ext.to_be_bytes();
        let [i, j, k, l] = (bytes.len() as u32).to_be_bytes();
        Frame {
            in_place: [CHANNEL_EXTENDED_DATA, a, b, c, d, e, f, g, h, i, j, k, l],
            count: ROOM,
            shared: bytes,
            hold_until: None,
            channel: Some(channel),
        }
    }

    /// The head and the body: the payload is the one and then the other.
    pub fn parts(&self) -> (&[u8], &[u8])
        ensures payload { result.0.now ++ result.1.now ≡ self.now.payload }
        ensures head { result.0.now ≡ head_of self.now.payload }
        ensures body { result.1.now ≡ body_of self.now.payload }
        ensures length { length result.0.now ≤ 13 }
    {
        let (first, _) = self.in_place.split_at(self.count);
        let rest = self.shared.as_slice();
        if first.is_empty() {
            cut(rest)
        } else if rest.is_empty() {
            cut(first)
        } else {
            (first, rest)
        }
    }

    /// The head, in which the message's number stands: the payload is this and then the body.
    pub fn head(&self) -> &[u8]
        ensures head { result.now ≡ head_of self.now.payload }
        ensures length { length result.now ≤ 13 }
    {
        let (head, _) = self.parts();
        head
    }

    /// The body: all of the payload that stands behind the head.
    pub fn body(&self) -> &[u8]
        ensures body { result.now ≡ body_of self.now.payload }
        ensures length { length self.now.payload ≤ 13 + length result.now }
    {
        let (_, body) = self.parts();
        body
    }

    /// The moment before which it is not to go out, in milliseconds since 1970.
    pub fn hold_until(&self) -> Option<u64>
        ensures { result ≡ self.now.hold_until }
    {
        self.hold_until
    }

    /// This side's number of the channel that it was written for: for the messages 90 to 100 alone.
    pub fn channel(&self) -> Option<ChannelId>
        ensures { result ≡ self.now.channel }
    {
        self.channel
    }

    /// An equal frame, whose body shares its bytes where it can. A payload of at most 13 bytes
    /// takes no memory. `NoMemory` is the only error.
    pub fn copy(&self) -> Result<Frame, WireError>
        ensures ok { IfOk result (λ frame. frame ≡ self.now) }
        ensures memory { IfErr result (λ e. e ≡ NoMemory) }
        ensures short { length self.now.payload ≤ 13 → IsOk result }
    {
        let (head, body) = self.parts();
        if body.len() <= ROOM - head.len() {
            return Ok(Frame {
                in_place: in_place(head, body),
                count: head.len() + body.len(),
                shared: Bytes::new(),
                hold_until: self.hold_until,
                channel: self.channel,
            });
        }
        Ok(Frame {
            in_place: self.in_place,
            count: self.count,
            shared: self.shared.clone()?,
            hold_until: self.hold_until,
            channel: self.channel,
        })
    }
}

// Whether the first two one after another are the others one after another.
fn are_same_joined(front: &[u8], back: &[u8], other_front: &[u8], other_back: &[u8]) -> bool
    requires { length front.now ≤ length other_front.now }
    ensures { result ≡ bytes_eq (front.now ++ back.now) (other_front.now ++ other_back.now) }
{
    let (start, rest) = other_front.split_at(front.len());
    front == start && back.strip_prefix(rest) == Some(other_back)
}

// Whether the two have one payload, however it is parted.
fn have_same_payload(frame: &Frame, other: &Frame) -> bool
    ensures { result ≡ bytes_eq frame.now.payload other.now.payload }
{
    let (head, body) = frame.parts();
    let (other_head, other_body) = other.parts();
    if head.len() <= other_head.len() {
        are_same_joined(head, body, other_head, other_body)
    } else {
        are_same_joined(other_head, other_body, head, body)
    }
}

/// Frames are equal exactly where payload, hold and channel are, however they were made.
impl PartialEq for Frame {
    ghost use Rattle.std.specs.Cmp.{partial_equiv_from_equiv};
    ghost use Rattle.ssh_link.specs.Frames.{are_same, are_same-laws};

    ghost eq = { are_same };

    ghost laws = { partial_equiv_from_equiv are_same-laws };

    fn eq(&self, other: &Frame) -> bool {
        have_same_payload(self, other)
            && self.hold_until == other.hold_until
            && self.channel == other.channel
    }
}

impl Eq for Frame {
    ghost use Rattle.ssh_link.specs.Frames.{are_same-laws};

    ghost laws = { are_same-laws };
}

/// One event that the session is to finish.
#[derive(Debug, Drop, PartialEq, Eq)]
pub struct Input {
    /// When it came, in milliseconds since 1970.
    pub moment: u64,
    /// What came.
    pub kind: InputKind,
}

impl Input {
    /// An equal input. `NoMemory` is the only error.
    pub fn copy(&self) -> Result<Input, WireError>
        ensures ok { IfOk result (λ input. input ≡ self.now) }
        ensures memory { IfErr result (λ e. e ≡ NoMemory) }
    {
        Ok(Input {
            moment: self.moment,
            kind: self.kind.copy()?,
        })
    }
}

/// What came in.
#[derive(Debug, Drop, PartialEq, Eq)]
pub enum InputKind {
    /// A payload of the peer, already opened, from its message number on.
    Payload(Bytes),
    /// A command from outside, and the ticket under which its outcome is answered.
    Command(u64, Command),
    /// The answer to an open of the peer from outside, and the ticket under which its outcome is
    /// answered.
    OpenReply(u64, OpenAnswer),
    /// Nothing came from the peer for a while: it may be asked for a sign of life.
    KeepaliveTick,
    /// Nothing came from the peer for too long.
    InactivityTick,
    /// The keys are to be exchanged anew (RFC 4253 section 9).
    RekeyTick,
    /// The peer is gone: nothing follows.
    End,
}

impl InputKind {
    /// An equal kind. `NoMemory` is the only error.
    pub fn copy(&self) -> Result<InputKind, WireError>
        ensures ok { IfOk result (λ kind. kind ≡ self.now) }
        ensures memory { IfErr result (λ e. e ≡ NoMemory) }
    {
        match self {
            InputKind::Payload(bytes) => Ok(InputKind::Payload(bytes.clone()?)),
            InputKind::Command(ticket, command) => {
                Ok(InputKind::Command(*ticket, command.copy()?))
            }
            InputKind::OpenReply(ticket, answer) => {
                Ok(InputKind::OpenReply(*ticket, answer.copy()?))
            }
            InputKind::KeepaliveTick => Ok(InputKind::KeepaliveTick),
            InputKind::InactivityTick => Ok(InputKind::InactivityTick),
            InputKind::RekeyTick => Ok(InputKind::RekeyTick),
            InputKind::End => Ok(InputKind::End),
        }
    }

    // Whether an input of this kind may be given, where these are asked for.
    pub(crate) fn is_asked(&self, commands: bool, replies: bool) -> bool
        ensures { result ≡ is_asked commands replies self.now }
    {
        match self {
            InputKind::Command(..) => commands,
            InputKind::OpenReply(..) => replies,
            _ => true,
        }
    }

    // Whether it is a reply to an open.
    pub(crate) fn is_reply(&self) -> bool
        ensures { result ≡ is_reply self.now }
    {
        matches!(self, InputKind::OpenReply(..))
    }
}
