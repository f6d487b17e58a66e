// A pointer without a type, as C keeps it, which owns a file server or nothing.
ghost use Rattle.std.specs.Prelude.{◌≡◌, Option, Some, None};
ghost use Rattle.std.specs.Coded.{coded_option};
ghost use Rattle.ssh_c.specs.contracts.sftp.server.FileServer as the_server;
ghost use Rattle.ssh_c.specs.declared.sftp.server.FileServer.{FileServer};

use super::server::FileServer;
use crate::parts::Parts;
use std::alloc::Global;
use std::marker::Model;
use std::ptr;

/// Where a file server lies, or null.
#[repr(C)]
#[derive(Drop)]
pub struct FilesSlot {
    at: *mut u8,
    alloc: Global,
    ghost held: { Option FileServer } by { coded_option the_server.the_row.coded },
}

impl Model for FilesSlot {
    ghost use Rattle.ssh_c.specs.Owning.{owns_at};
    ghost use Rattle.std_heap.specs.contracts.GlobalAllocator.TheImpl.{ghosts};
    ghost use Rattle.ssh_c.specs.contracts.sftp.server.FileServer as the_server;

    ghost also_owns = { λ slot. owns_at (ghosts.dealloc_token slot.alloc) the_server.the_row slot.at
        slot.held };
}

impl FilesSlot {
    ghost use Rattle.std.specs.Prelude.{◌≡◌, Option, Some, None, IsSome};

    /// A slot without a file server.
    pub(crate) fn none(alloc: Global) -> FilesSlot
        ensures { result.held ≡ None }
    {
        FilesSlot {
            at: ptr::null_mut(),
            alloc,
        }
    }

    // The slot of a box with these parts.
    fn of_parts(parts: Parts<FileServer, Global>) -> FilesSlot
        ensures { result.held ≡ Some parts.value }
    {
        let Parts { place, alloc } = parts;
        FilesSlot {
            at: place as *mut u8,
            alloc,
        }
    }

    // The parts of the box that a full slot has.
    fn into_parts(self) -> Parts<FileServer, Global>
        requires { IsSome self.held }
        ensures { self.held ≡ Some result.value }
    {
        let FilesSlot { at, alloc } = self;
        Parts {
            place: at as *mut FileServer,
            alloc,
        }
    }

    /// A slot with this file server.
    pub(crate) fn of(server: Box<FileServer>) -> FilesSlot
        ensures { result.held ≡ Some server.value }
    {
        FilesSlot::of_parts(Parts::of(server))
    }

    /// The file server of a full slot.
    pub(crate) fn into_box(self) -> Box<FileServer>
        requires { IsSome self.held }
        ensures { self.held ≡ Some result.value }
    {
        self.into_parts().into_box()
    }
}
