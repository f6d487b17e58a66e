// Reading the messages that an end takes.
ghost use Rattle.std.specs.Prelude.{◌≡◌, ◌∷◌, [], IfOk, IfErr, MatchResult};
ghost use Rattle.ssh_wire.specs.Field.{Bytes as FieldOfBytes, MisfitsAll, MisfitsWhole};
ghost use Rattle.ssh_wire.specs.Field.{SpellsAll, SpellsWhole};
ghost use Rattle.ssh_wire.specs.Messages.{channel_window_adjust, channel_data};
ghost use Rattle.ssh_wire.specs.Messages.{channel_eof};
ghost use Rattle.ssh_ends.specs.Incoming.{IsNo, IsUnread, Says, SaysFields, number_of};
ghost use Rattle.ssh_ends.specs.Incoming.{unread_by};

use crate::{EndError, Incoming};
use bytes::Bytes;
use ssh_wire::message::{
    CHANNEL_CLOSE, CHANNEL_DATA, CHANNEL_EOF, CHANNEL_EXTENDED_DATA, CHANNEL_OPEN,
    CHANNEL_OPEN_CONFIRMATION, CHANNEL_WINDOW_ADJUST,
};
use ssh_wire::{
    ChannelId, ChannelOpenConfirmation, LayoutError, OpenChannelMessage, Reader, WireError,
};
use std::alloc::Global;

/// What this payload says to an end. `Unexpected` where it says nothing, and `NoMemory`.
pub(crate) fn read(alloc: Global, payload: &[u8]) -> Result<Incoming, EndError>
    ensures says { IfOk result (λ said. Says said payload.now) }
    ensures unread { IfErr result (IsUnread payload.now) }
{
    match payload {
        [number, fields @ ..] => read_message(alloc, *number, fields),
        [] => Err(EndError::Unexpected),
    }
}

// The message of this number with these fields.
fn read_message(alloc: Global, number: u8, fields: &[u8]) -> Result<Incoming, EndError>
    ensures says { IfOk result (λ said. (number_of said ≡ number) × SaysFields said fields.now) }
    ensures no { IfErr result (IsNo number fields.now) }
{
    match number {
        CHANNEL_OPEN => read_open(alloc, fields),
        CHANNEL_OPEN_CONFIRMATION => read_confirmation(fields),
        CHANNEL_WINDOW_ADJUST => read_window_adjust(fields),
        CHANNEL_DATA => read_data(alloc, fields),
        CHANNEL_EXTENDED_DATA => read_extended_data(alloc, fields),
        CHANNEL_EOF => read_eof(fields),
        CHANNEL_CLOSE => read_close(fields),
        _ => Err(EndError::Unexpected),
    }
}

fn read_open(alloc: Global, fields: &[u8]) -> Result<Incoming, EndError>
    ensures says { IfOk result (λ said. (number_of said ≡ 90) × SaysFields said fields.now) }
    ensures no { IfErr result (IsNo 90 fields.now) }
{
    let mut reader = Reader::new(fields);
    match OpenChannelMessage::parse(alloc, &mut reader) {
        Ok(message) => Ok(Incoming::Open {
            sender: message.recipient_channel,
            window: message.recipient_window_size,
            packet: message.recipient_maximum_packet_size,
        }),
        Err(why) => Err(refusal(why)),
    }
}

fn refusal(why: LayoutError) -> EndError
    ensures { result ≡ unread_by why }
{
    match why {
        LayoutError::Wire(WireError::NoMemory) => EndError::NoMemory,
        _ => EndError::Unexpected,
    }
}

fn read_confirmation(fields: &[u8]) -> Result<Incoming, EndError>
    ensures says { IfOk result (λ said. (number_of said ≡ 91) × SaysFields said fields.now) }
    ensures no { IfErr result (IsNo 91 fields.now) }
{
    let mut reader = Reader::new(fields);
    let Ok(confirmation) = ChannelOpenConfirmation::parse(&mut reader) else {
        return Err(EndError::Unexpected);
    };
    match reader.end() {
        Ok(()) => Ok(Incoming::Confirmation(confirmation)),
        Err(_) => Err(EndError::Unexpected),
    }
}

fn read_window_adjust(fields: &[u8]) -> Result<Incoming, EndError>
    ensures says { IfOk result (λ said. (number_of said ≡ 93) × SaysFields said fields.now) }
    ensures no { IfErr result (IsNo 93 fields.now) }
{
    match two_numbers(fields) {
        Ok((channel, amount)) => Ok(Incoming::WindowAdjust {
            channel: ChannelId(channel),
            amount,
        }),
        Err(_) => Err(EndError::Unexpected),
    }
}

fn read_data(alloc: Global, fields: &[u8]) -> Result<Incoming, EndError>
    ensures says { IfOk result (λ said. (number_of said ≡ 94) × SaysFields said fields.now) }
    ensures no { IfErr result (IsNo 94 fields.now) }
{
    match number_and_bytes(fields) {
        Ok((channel, bytes)) => Ok(Incoming::Data {
            channel: ChannelId(channel),
            ext: None,
            bytes: Bytes::copy_from_slice(alloc, bytes)?,
        }),
        Err(_) => Err(EndError::Unexpected),
    }
}

fn read_extended_data(alloc: Global, fields: &[u8]) -> Result<Incoming, EndError>
    ensures says { IfOk result (λ said. (number_of said ≡ 95) × SaysFields said fields.now) }
    ensures no { IfErr result (IsNo 95 fields.now) }
{
    let Ok((channel, code, rest)) = two_numbers_first(fields) else {
        return Err(EndError::Unexpected);
    };
    match only_bytes(rest) {
        Ok(bytes) => Ok(Incoming::Data {
            channel: ChannelId(channel),
            ext: Some(code),
            bytes: Bytes::copy_from_slice(alloc, bytes)?,
        }),
        Err(_) => Err(EndError::Unexpected),
    }
}

fn read_eof(fields: &[u8]) -> Result<Incoming, EndError>
    ensures says { IfOk result (λ said. (number_of said ≡ 96) × SaysFields said fields.now) }
    ensures no { IfErr result (IsNo 96 fields.now) }
{
    match one_number(fields) {
        Ok(channel) => Ok(Incoming::Eof(ChannelId(channel))),
        Err(_) => Err(EndError::Unexpected),
    }
}

fn read_close(fields: &[u8]) -> Result<Incoming, EndError>
    ensures says { IfOk result (λ said. (number_of said ≡ 97) × SaysFields said fields.now) }
    ensures no { IfErr result (IsNo 97 fields.now) }
{
    match one_number(fields) {
        Ok(channel) => Ok(Incoming::Close(ChannelId(channel))),
        Err(_) => Err(EndError::Unexpected),
    }
}

fn one_number(fields: &[u8]) -> Result<u32, WireError>
    ensures { MatchResult result
        (λ number. SpellsWhole channel_eof.fields (number, tt) fields.now)
        (λ why. MisfitsWhole channel_eof.fields fields.now why) }
{
    let mut reader = Reader::new(fields);
    let number = reader.u32()?;
    reader.end()?;
    Ok(number)
}

fn two_numbers(fields: &[u8]) -> Result<(u32, u32), WireError>
    ensures { MatchResult result
        (λ two. SpellsWhole channel_window_adjust.fields (two.0, (two.1, tt)) fields.now)
        (λ why. MisfitsWhole channel_window_adjust.fields fields.now why) }
{
    let mut reader = Reader::new(fields);
    let first = reader.u32()?;
    let second = reader.u32()?;
    reader.end()?;
    Ok((first, second))
}

fn number_and_bytes(fields: &[u8]) -> Result<(u32, &[u8]), WireError>
    ensures { MatchResult result
        (λ both. SpellsWhole channel_data.fields (both.0, (both.1.now, tt)) fields.now)
        (λ why. MisfitsWhole channel_data.fields fields.now why) }
{
    let mut reader = Reader::new(fields);
    let number = reader.u32()?;
    let bytes = reader.bytes()?;
    reader.end()?;
    Ok((number, bytes))
}

fn two_numbers_first(fields: &[u8]) -> Result<(u32, u32, &[u8]), WireError>
    ensures { MatchResult result
        (λ all. SpellsAll channel_window_adjust.fields (all.0, (all.1, tt)) fields.now all.2.now)
        (λ why. MisfitsAll channel_window_adjust.fields fields.now why) }
{
    let mut reader = Reader::new(fields);
    let first = reader.u32()?;
    let second = reader.u32()?;
    Ok((first, second, reader.rest()))
}

fn only_bytes(fields: &[u8]) -> Result<&[u8], WireError>
    ensures { MatchResult result
        (λ bytes. SpellsWhole (FieldOfBytes ∷ []) (bytes.now, tt) fields.now)
        (λ why. MisfitsWhole (FieldOfBytes ∷ []) fields.now why) }
{
    let mut reader = Reader::new(fields);
    let bytes = reader.bytes()?;
    reader.end()?;
    Ok(bytes)
}
