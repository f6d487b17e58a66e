// The fields of a message, and a cursor over its bytes.
ghost use Rattle.std.specs.Prelude.{◌≡◌, ◌≢◌, ◌+◌, ◌<◌, [], length, IfOk, IfErr, OnOk, OnErr, IsOk};
ghost use Rattle.std.specs.Prelude.{◌↔◌, drop};
ghost use Rattle.ssh_wire.specs.Field.{Byte, Number, Long, Bytes, Text, Misfits};
ghost use Rattle.ssh_wire.specs.Reading.{Passes, Reads};
ghost use Rattle.ssh_wire.specs.declared.error.WireError.TheVariants.{Trailing};

use crate::WireError;
use std::marker::Model;

/// The fields of a payload: what follows its message number (RFC 4253 section 6, RFC 4251 section
/// 5). An empty payload has neither.
pub fn fields_of(payload: &[u8]) -> &[u8]
    ensures { result.now ≡ drop 1 payload.now }
{
    if payload.is_empty() {
        return payload;
    }
    &payload[1..]
}

/// Reads the fields of a message one after another. A clause sees how many bytes were read and
/// the bytes that are left. A call that is refused leaves both as they were.
#[derive(Drop)]
pub struct Reader<'a> {
    position: usize,
    left: &'a [u8],
}

impl<'a> Model for Reader<'a> {
    ghost use Rattle.std.specs.Prelude.{◌+◌, ◌<◌, ◌^◌, length};
    ghost use Rattle.ssh_wire.specs.Reading.{Reading};

    ghost Value = { Reading };

    ghost view = { λ r. record { position = r.position; left = r.left.now } };

    ghost invariant = { λ r. r.position + length r.left.now < 2 ^ 64 };
}

impl<'a> Reader<'a> {
    /// A reader before the first of these bytes.
    pub fn new(bytes: &'a [u8]) -> Reader<'a>
        ensures position { result.position ≡ 0 }
        ensures left { result.left ≡ bytes.now }
    {
        Reader {
            position: 0,
            left: bytes,
        }
    }

    /// Moves past that many bytes.
    fn take(&mut self, count: usize) -> Result<&'a [u8], WireError>
        ensures ok { IfOk result (λ piece. Passes self.old self.new piece.now
            × (length piece.now ≡ count)) }
        ensures short { IfErr result (λ e. (e ≡ WireError.Short) × (length self.old.left < count)) }
        ensures err { OnErr result (self.new ≡ self.old) }
    {
        if self.left.len() < count {
            return Err(WireError::Short);
        }
        let (piece, left) = self.left.split_at(count);
        self.position += count;
        self.left = left;
        Ok(piece)
    }

    /// How many bytes were read.
    pub fn position(&self) -> usize
        ensures { result ≡ self.now.position }
    {
        self.position
    }

    /// One byte.
    pub fn u8(&mut self) -> Result<u8, WireError>
        ensures ok { IfOk result (Reads Byte self.old self.new) }
        ensures misfit { IfErr result (Misfits Byte self.old.left) }
        ensures err { OnErr result (self.new ≡ self.old) }
    {
        let piece = self.take(1)?;
        Ok(piece[0])
    }

    /// A number of four bytes.
    pub fn u32(&mut self) -> Result<u32, WireError>
        ensures ok { IfOk result (Reads Number self.old self.new) }
        ensures misfit { IfErr result (Misfits Number self.old.left) }
        ensures err { OnErr result (self.new ≡ self.old) }
    {
        let piece = self.take(4)?;
        Ok(u32::from_be_bytes([piece[0], piece[1], piece[2], piece[3]]))
    }

    /// A number of eight bytes.
    pub fn u64(&mut self) -> Result<u64, WireError>
        ensures ok { IfOk result (Reads Long self.old self.new) }
        ensures misfit { IfErr result (Misfits Long self.old.left) }
        ensures err { OnErr result (self.new ≡ self.old) }
    {
        let piece = self.take(8)?;
        Ok(u64::from_be_bytes([
            piece[0], piece[1], piece[2], piece[3], piece[4], piece[5], piece[6], piece[7],
        ]))
    }

    /// A reader at the same place, to try what may be refused part of the way.
    pub fn ahead(&self) -> Reader<'a>
        ensures { result ≡ self.now }
    {
        Reader {
            position: self.position,
            left: self.left,
        }
    }

    /// A string: its length, then its bytes.
    pub fn bytes(&mut self) -> Result<&'a [u8], WireError>
        ensures ok { IfOk result (λ text. Reads Bytes self.old self.new text.now) }
        ensures misfit { IfErr result (Misfits Bytes self.old.left) }
        ensures err { OnErr result (self.new ≡ self.old) }
    {
        let mut ahead = self.ahead();
        let length = ahead.u32()?;
        let text = ahead.take(length as usize)?;
        *self = ahead;
        Ok(text)
    }

    /// A string that is UTF-8.
    pub fn text(&mut self) -> Result<&'a str, WireError>
        ensures ok { IfOk result (λ text. Reads Text self.old self.new text.now) }
        ensures misfit { IfErr result (Misfits Text self.old.left) }
        ensures err { OnErr result (self.new ≡ self.old) }
    {
        let mut ahead = self.ahead();
        let bytes = ahead.bytes()?;
        let Ok(text) = str::from_utf8(bytes) else {
            return Err(WireError::NotUtf8);
        };
        *self = ahead;
        Ok(text)
    }

    /// All that is left.
    pub fn rest(&mut self) -> &'a [u8]
        ensures rest { result.now ≡ self.old.left }
        ensures passed { Passes self.old self.new result.now }
        ensures nothing_left { self.new.left ≡ [] }
    {
        let rest = self.left;
        self.position += rest.len();
        self.left = &[];
        rest
    }

    /// Ok exactly where nothing is left.
    pub fn end(&self) -> Result<(), WireError>
        ensures ok { IsOk result ↔ (self.now.left ≡ []) }
        ensures trailing { IfErr result (λ e. e ≡ Trailing (length self.now.left)) }
    {
        match self.left.len() {
            0 => Ok(()),
            left => Err(WireError::Trailing { left }),
        }
    }
}
