// What a caller holds of a file server.
ghost use Rattle.std.specs.Prelude.{◌≡◌, is_some, false};

use super::server::FileServer;
use super::slot::FilesSlot;
use std::alloc::Global;
use std::mem;

/// A file server, or none: all bytes 0 is none. The caller reads and writes neither field.
#[repr(C)]
#[derive(Drop)]
pub struct FilesHandle {
    slot: FilesSlot,
    live: bool,
    ghost filled: { live ≡ is_some slot.held },
}

impl FilesHandle {
    ghost use Rattle.std.specs.Prelude.{◌≡◌, Some, None, MatchOption};

    // No file server.
    fn none(alloc: Global) -> FilesHandle
        ensures { result.slot.held ≡ None }
    {
        FilesHandle {
            slot: FilesSlot::none(alloc),
            live: false,
        }
    }

    /// Whether it is a file server.
    pub(crate) fn is_live(&self) -> bool {
        self.live
    }

    /// Puts a file server in the place of what is there.
    pub(crate) fn put(&mut self, server: Box<FileServer>)
        ensures { self.new.slot.held ≡ Some server.value }
    {
        *self = FilesHandle {
            slot: FilesSlot::of(server),
            live: true,
        };
    }

    /// Takes the file server out, if there is one.
    pub(crate) fn take(&mut self, alloc: Global) -> Option<Box<FileServer>>
        ensures taken { MatchOption result (self.old.slot.held ≡ None)
            (λ server. self.old.slot.held ≡ Some server.value) }
        ensures none { self.new.slot.held ≡ None }
    {
        let FilesHandle { slot, live } = mem::replace(self, FilesHandle::none(alloc));
        if live { Some(slot.into_box()) } else { None }
    }
}
