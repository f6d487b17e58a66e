// The trusted edge: standard input and output, or any other reader and writer of bytes.
ghost use Rattle.std.specs.Prelude.{◌≡◌, ◌<◌, ◌≤◌, ℕ, None, IfOk, OnOk, OnErr, length, take};
ghost use Rattle.std.specs.Io.KnownBytes.{ReadConsumes, WriteAppends};
ghost use Rattle.ssh_link.specs.Told.{Adds, AddsNothing};
ghost use Rattle.ssh_link.specs.Faults.{RoseOrFull, one_more};
ghost use Rattle.ssh_link.specs.Io.{Takes, AtEnd};

use crate::{IoFailed, Sink, Source};
use std::io::{Read, Write};
use std::marker::Model;

/// A source over a reader, as that of standard input. It counts each error of the reader, and
/// tells no bytes of its own: they are the reader's.
#[derive(Debug, Drop)]
pub struct StdSource<R> {
    reader: R,
    faults: u64,
}

impl<R> Model for StdSource<R> {
    ghost use Rattle.ssh_link.specs.Io.{Counted};

    ghost Value = { Counted R };

    ghost view = { λ s. record { inner = s.reader; faults = s.faults } };
}

impl<R> StdSource<R> {
    /// A source that reads from this reader.
    pub fn new(reader: R) -> StdSource<R>
        ensures inner { result.inner ≡ reader }
        ensures faults { result.faults ≡ 0 }
    {
        StdSource { reader, faults: 0 }
    }
}

impl<R: Read> Source for StdSource<R> {
    ghost left = { λ _. None };

    ghost faults = { λ s. s.faults };

    fn read(&mut self, buf: &mut [u8]) -> Result<usize, IoFailed>
        ensures within { IfOk result (λ n. n ≤ length buf.old) }
        ensures len { length buf.new ≡ length buf.old }
        ensures taken { IfOk result (λ n. Takes None None n buf.new) }
        ensures end { IfOk result (λ n. n ≡ 0 → 0 < length buf.old → AtEnd None) }
        ensures cause { OnErr result (RoseOrFull self.old.faults self.new.faults) }
        ensures later { self.old.faults ≤ self.new.faults }
        ensures quiet { OnOk result (self.new.faults ≡ self.old.faults) }
        ensures counts { OnErr result (self.new.faults ≡ one_more self.old.faults) }
        ensures bytes { ReadConsumes (R.remaining self.old.inner) (R.remaining self.new.inner)
            result buf.new }
    {
        match self.reader.read(buf) {
            Ok(count) => Ok(count),
            Err(_) => {
                self.faults = self.faults.saturating_add(1);
                Err(IoFailed)
            }
        }
    }
}

/// A sink over a writer, as that of standard output. It counts each error of the writer, a write
/// of nothing from a piece that is not empty among them, and tells no bytes of its own.
#[derive(Debug, Drop)]
pub struct StdSink<W> {
    writer: W,
    faults: u64,
}

impl<W> Model for StdSink<W> {
    ghost use Rattle.ssh_link.specs.Io.{Counted};

    ghost Value = { Counted W };

    ghost view = { λ s. record { inner = s.writer; faults = s.faults } };
}

impl<W> StdSink<W> {
    /// A sink that writes to this writer.
    pub fn new(writer: W) -> StdSink<W>
        ensures inner { result.inner ≡ writer }
        ensures faults { result.faults ≡ 0 }
    {
        StdSink { writer, faults: 0 }
    }
}

impl<W: Write> Sink for StdSink<W> {
    ghost held = { λ _. None };

    ghost faults = { λ s. s.faults };

    fn write(&mut self, piece: &[u8]) -> Result<usize, IoFailed>
        ensures within { IfOk result (λ n. n ≤ length piece.now) }
        ensures some { IfOk result (λ n. 0 < length piece.now → 0 < n) }
        ensures written { IfOk result (λ n. Adds None None (take n piece.now)) }
        ensures err { OnErr result (AddsNothing {A = ℕ} None None) }
        ensures cause { OnErr result (RoseOrFull self.old.faults self.new.faults) }
        ensures later { self.old.faults ≤ self.new.faults }
        ensures quiet { OnOk result (self.new.faults ≡ self.old.faults) }
        ensures counts { OnErr result (self.new.faults ≡ one_more self.old.faults) }
        ensures bytes { WriteAppends (W.contents self.old.inner) (W.contents self.new.inner) result
            piece.now }
    {
        match self.writer.write(piece) {
            Ok(0) if !piece.is_empty() => {
                self.faults = self.faults.saturating_add(1);
                Err(IoFailed)
            }
            Ok(count) => Ok(count),
            Err(_) => {
                self.faults = self.faults.saturating_add(1);
                Err(IoFailed)
            }
        }
    }
}
