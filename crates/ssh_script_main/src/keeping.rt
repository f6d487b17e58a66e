// A source whose bytes are kept as they are read.
ghost use Rattle.std.specs.Prelude.{◌≡◌};

use ssh_link::{IoFailed, Source};
use std::alloc::Global;

/// Reads another source, and keeps what it gave.
#[derive(Drop)]
pub(crate) struct Keeping<S> {
    source: S,
    kept: Vec<u8>,
    is_whole: bool,
}

impl<S> Keeping<S> {
    /// Nothing was read yet.
    pub(crate) fn new(alloc: Global, source: S) -> Keeping<S> {
        Keeping {
            source,
            kept: Vec::new(alloc),
            is_whole: true,
        }
    }

    /// What was read; None where there was no memory to keep all of it.
    pub(crate) fn kept(&self) -> Option<&[u8]> {
        if self.is_whole {
            Some(self.kept.as_slice())
        } else {
            None
        }
    }
}

impl<S: Source> Source for Keeping<S> {
    ghost left = { λ keeping. S.left keeping.source };

    ghost faults = { λ keeping. S.faults keeping.source };

    fn read(&mut self, buf: &mut [u8]) -> Result<usize, IoFailed> {
        let count = self.source.read(buf)?;
        if self.kept.extend_from_slice(&buf[..count]).is_err() {
            self.is_whole = false;
        }
        Ok(count)
    }
}
