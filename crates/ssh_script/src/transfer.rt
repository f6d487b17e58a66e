// All bytes of a source, and all bytes into a sink.
ghost use Rattle.std.specs.Prelude.{◌≡◌, ◌≤◌, ◌<◌, ◌+◌, ◌-◌, length, IfOk, OnOk, OnErr, IsErrOf};
ghost use Rattle.ssh_link.specs.Told.{Adds};
ghost use Rattle.ssh_link.specs.Faults.{RoseOrFull};
ghost use Rattle.ssh_link.specs.Io.{AtEnd};
ghost use Rattle.ssh_script.specs.declared.transfer.ReadError.TheVariants.{NoMemory, Failed};
ghost use Rattle.ssh_script.specs.Transfer.{IsFront, IsReadTo, IsReadWithin, IsReadOn, AddsPart};

use ssh_link::{IoFailed, Sink, Source};
use std::alloc::{AllocError, Global};

/// Why a source was not read to its end.
#[derive(Clone, Copy, Debug, PartialEq, Eq)]
pub(crate) enum ReadError {
    /// There was no memory.
    NoMemory,
    /// The source failed: its count of faults rose.
    Failed,
}

impl From<AllocError> for ReadError {
    ghost from_gives = { λ _ e. e ≡ NoMemory };

    fn from(_: AllocError) -> ReadError {
        ReadError::NoMemory
    }
}

impl From<IoFailed> for ReadError {
    ghost from_gives = { λ _ e. e ≡ Failed };

    fn from(_: IoFailed) -> ReadError {
        ReadError::Failed
    }
}

/// Reads the next bytes of the source behind the text, which has at most `most` bytes then, and
/// says how many they are: 0 where no byte is left.
fn read_piece<S: Source>(
    source: &mut S,
    text: &mut Vec<u8>,
    most: usize,
) -> Result<usize, ReadError>
    requires room { length text.old.items < most }
    ensures read { OnOk result (IsReadOn (S.left source.old) (S.left source.new) text.old.items
        text.new.items) }
    ensures count { IfOk result (λ n. length text.new.items ≡ length text.old.items + n) }
    ensures within { OnOk result (length text.new.items ≤ most) }
    ensures end { IfOk result (λ n. n ≡ 0 → AtEnd (S.left source.new)) }
    ensures no_further { IsReadWithin (most - length text.old.items) (S.left source.old)
        (S.left source.new) }
    ensures cause { IsErrOf result ReadError.Failed → RoseOrFull (S.faults source.old)
        (S.faults source.new) }
    ensures later { S.faults source.old ≤ S.faults source.new }
{
    let mut buf = [0u8; 256];
    let room = buf.len().min(most - text.len());
    let n = source.read(&mut buf[..room])?;
    text.extend_from_slice(&buf[..n])?;
    Ok(n)
}

/// The first `most` bytes of the source, or all where they are fewer.
pub(crate) fn read_front<S: Source>(
    alloc: Global,
    source: &mut S,
    most: usize,
) -> Result<Vec<u8>, ReadError>
    ensures front { IfOk result (λ text. IsFront most (S.left source.old) text.items) }
    ensures whole { OnOk result (IsReadTo most (S.left source.old) (S.left source.new)) }
    ensures no_further { IsReadWithin most (S.left source.old) (S.left source.new) }
    ensures cause { IsErrOf result ReadError.Failed → RoseOrFull (S.faults source.old)
        (S.faults source.new) }
    ensures later { S.faults source.old ≤ S.faults source.new }
{
    let mut text = Vec::new(alloc);
    while text.len() < most {
        if read_piece(source, &mut text, most)? == 0 {
            return Ok(text);
        }
    }
    Ok(text)
}

/// Writes all of it, piece by piece.
pub fn write_all<W: Sink>(sink: &mut W, text: &[u8]) -> Result<(), IoFailed>
    ensures ok { OnOk result (Adds (W.held sink.old) (W.held sink.new) text.now) }
    ensures part { OnErr result (AddsPart (W.held sink.old) (W.held sink.new) text.now) }
    ensures cause { OnErr result (RoseOrFull (W.faults sink.old) (W.faults sink.new)) }
    ensures later { W.faults sink.old ≤ W.faults sink.new }
{
    let mut rest = text;
    while !rest.is_empty() {
        let n = sink.write(rest)?;
        rest = &rest[n..];
    }
    Ok(())
}
