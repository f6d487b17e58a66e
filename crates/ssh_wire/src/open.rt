// The messages that open a channel, confirm one, and refuse one.
ghost use Rattle.std.specs.Prelude.{◌≡◌, ◌≢◌, ◌⊎◌, ◌↔◌, ◌<◌, ◌≤◌, ◌^◌, ◌++◌, ℕ, List, length};
ghost use Rattle.std.specs.Prelude.{codes, IfOk, IfErr, OnOk, OnErr, IsErrOf};
ghost use Rattle.ssh_wire.specs.Reading.{MovesOn};
ghost use Rattle.ssh_wire.specs.OneReading.{SaysOne, HasOneReason, NeverBoth};
ghost use Rattle.ssh_wire.specs.Open.{SpellsOpen, MisfitsOpen, SpellsConfirmation};
ghost use Rattle.ssh_wire.specs.Open.{MisfitsConfirmation, open_failure};
ghost use Rattle.ssh_wire.specs.declared.error.WireError.TheVariants.{NoMemory, TooLong};
ghost use Rattle.ssh_wire.specs.declared.error.LayoutError.TheVariants.{Wire};

use crate::message::CHANNEL_OPEN_FAILURE;
use crate::{ChannelType, LayoutError, Reader, WireError, put_bytes, put_text, put_u8, put_u32};
use std::alloc::Global;

/// SSH_OPEN_UNKNOWN_CHANNEL_TYPE (RFC 4254 section 5.1).
const UNKNOWN_CHANNEL_TYPE: u8 = 3;

/// A request for a channel (RFC 4254 section 5.1). The numbers are those of the side that asks.
#[derive(Debug, Drop, PartialEq, Eq)]
pub struct OpenChannelMessage {
    /// The type of the channel, with the fields that are its own.
    pub typ: ChannelType,
    /// The number by which the peer names the channel: the recipient of each message to it.
    pub recipient_channel: u32,
    /// How many bytes of data the peer takes at first.
    pub recipient_window_size: u32,
    /// The most bytes of data that the peer takes in one message.
    pub recipient_maximum_packet_size: u32,
}

impl OpenChannelMessage {
    /// Reads a request for a channel, after its number byte. A known type is read to the last
    /// byte; of another the fields after the packet size stay unread. `Inconsistent` at a packet
    /// size of 0, before the type's own fields are read, and `Wire` at the first field that does
    /// not fit or at bytes after the last. A refusal leaves the reader as it was.
    pub fn parse(alloc: Global, r: &mut Reader<'_>) -> Result<OpenChannelMessage, LayoutError>
        ensures ok { IfOk result (λ message. SpellsOpen message r.old.left r.new.left) }
        ensures moves { OnOk result (MovesOn r.old r.new) }
        ensures misfit { IfErr result (λ why. (why ≡ Wire NoMemory) ⊎ MisfitsOpen r.old.left why) }
        ensures err { OnErr result (r.new ≡ r.old) }
    {
        let mut ahead = r.ahead();
        let name = ahead.text()?;
        let recipient_channel = ahead.u32()?;
        let recipient_window_size = ahead.u32()?;
        let recipient_maximum_packet_size = ahead.u32()?;
        if recipient_maximum_packet_size == 0 {
            return Err(LayoutError::Inconsistent);
        }
        let typ = ChannelType::decode(alloc, name, &mut ahead)?;
        *r = ahead;
        Ok(OpenChannelMessage {
            typ,
            recipient_channel,
            recipient_window_size,
            recipient_maximum_packet_size,
        })
    }

    /// Appends the refusal of this request, numbered 92, with its description in English: one
    /// payload, with no length before it (RFC 4254 section 5.1). `TooLong` exactly where the
    /// description is longer than 2^32 - 1 bytes, and no other error but `NoMemory`.
    pub fn fail(&self, out: &mut Vec<u8>, reason: u8, message: &[u8]) -> Result<(), WireError>
        ensures ok { OnOk result (out.new.items ≡ out.old.items
            ++ open_failure self.now.recipient_channel reason message.now (codes "en")) }
        ensures too_long { IsErrOf result WireError.TooLong ↔ (2 ^ 32 ≤ length message.now) }
        ensures errors { IfErr result (λ e. (e ≡ TooLong) ⊎ (e ≡ NoMemory)) }
        ensures err { OnErr result (out.new.items ≡ out.old.items) }
    {
        if u32::try_from(message.len()).is_err() {
            return Err(WireError::TooLong);
        }
        let start = out.len();
        let written = self.put_failure(out, reason, message);
        if written.is_err() {
            // Only whole payloads go out.
            out.truncate(start);
        }
        written
    }

    /// Appends the refusal of a type that is not known: `fail` with the reason 3 and its text.
    /// The only error is `NoMemory`.
    pub fn unknown_type(&self, out: &mut Vec<u8>) -> Result<(), WireError>
        ensures ok { OnOk result (out.new.items ≡ out.old.items
            ++ open_failure self.now.recipient_channel 3 (codes "Unknown channel type")
            (codes "en")) }
        ensures memory { IfErr result (λ e. e ≡ NoMemory) }
        ensures err { OnErr result (out.new.items ≡ out.old.items) }
    {
        self.fail(out, UNKNOWN_CHANNEL_TYPE, b"Unknown channel type")
    }

    /// Appends the fields of the refusal, or its first ones where there is no memory for all.
    fn put_failure(&self, out: &mut Vec<u8>, reason: u8, message: &[u8]) -> Result<(), WireError>
        requires { length message.now < 2 ^ 32 }
        ensures ok { OnOk result (out.new.items ≡ out.old.items
            ++ open_failure self.now.recipient_channel reason message.now (codes "en")) }
        ensures memory { IfErr result (λ e. e ≡ NoMemory) }
        ensures grown { (more : List ℕ) × (out.new.items ≡ out.old.items ++ more) }
    {
        put_u8(out, CHANNEL_OPEN_FAILURE)?;
        put_u32(out, self.recipient_channel)?;
        put_u32(out, u32::from(reason))?;
        put_bytes(out, message)?;
        put_text(out, "en")
    }
}

/// The answer that opens a channel (RFC 4254 section 5.1).
#[derive(Clone, Copy, Debug, PartialEq, Eq)]
pub struct ChannelOpenConfirmation {
    /// The number that the channel had in the request.
    pub recipient_channel: u32,
    /// The number by which the peer names the channel.
    pub sender_channel: u32,
    /// How many bytes of data the peer takes at first.
    pub initial_window_size: u32,
    /// The most bytes of data that the peer takes in one message.
    pub maximum_packet_size: u32,
}

impl ChannelOpenConfirmation {
    /// Reads a confirmation, after its number byte; what follows its four numbers stays unread.
    /// `Inconsistent` at a packet size of 0, and `Wire` at the first number that is not there.
    /// A refusal leaves the reader as it was.
    pub fn parse(r: &mut Reader<'_>) -> Result<ChannelOpenConfirmation, LayoutError>
        ensures ok { IfOk result (λ message. SpellsConfirmation message r.old.left r.new.left) }
        ensures moves { OnOk result (MovesOn r.old r.new) }
        ensures misfit { IfErr result (MisfitsConfirmation r.old.left) }
        ensures err { OnErr result (r.new ≡ r.old) }
    {
        let mut ahead = r.ahead();
        let recipient_channel = ahead.u32()?;
        let sender_channel = ahead.u32()?;
        let initial_window_size = ahead.u32()?;
        let maximum_packet_size = ahead.u32()?;
        if maximum_packet_size == 0 {
            return Err(LayoutError::Inconsistent);
        }
        *r = ahead;
        Ok(ChannelOpenConfirmation {
            recipient_channel,
            sender_channel,
            initial_window_size,
            maximum_packet_size,
        })
    }
}

/// Bytes say at most one request for a channel, with one rest after it, or are refused for one
/// reason, and never both: so `parse` has one answer beside want of memory.
pub fn one_open()
    ensures value { SaysOne SpellsOpen }
    ensures reason { HasOneReason MisfitsOpen }
    ensures apart { NeverBoth SpellsOpen MisfitsOpen }
{}

/// Bytes say at most one confirmation, with one rest after it, or are refused for one reason, and
/// never both: so `parse` has one answer.
pub fn one_confirmation()
    ensures value { SaysOne SpellsConfirmation }
    ensures reason { HasOneReason MisfitsConfirmation }
    ensures apart { NeverBoth SpellsConfirmation MisfitsConfirmation }
{}
