// What callers that are not Rattle call of file servers: include/gidzork.h says of each how it is
// called.
ghost use Rattle.std.specs.Prelude.{◌≡◌, None};
ghost use Rattle.ssh_c.specs.Serving.{HoldsBegun, FilesFed, FilesTold, FilesEnd};

use super::handle::FilesHandle;
use super::server::FileServer;
use crate::codes::{BAD_ARGUMENT, CONTINUES, NO_CONNECTION, NO_MEMORY};
use std::alloc::Global;

/// Opens a file server in the handle, which is to hold none.
#[unsafe(no_mangle)]
pub extern "C" fn gidzork_sftp_open(alloc: Global, handle: &mut FilesHandle) -> u32
    ensures { result ≡ 0 → HoldsBegun handle.new.slot.held }
{
    if handle.is_live() {
        return BAD_ARGUMENT;
    }
    match Box::new(alloc, FileServer::new(alloc)) {
        Ok(server) => {
            handle.put(server);
            CONTINUES
        }
        Err(_) => NO_MEMORY,
    }
}

/// Ends a file server with its files. The handle holds none afterwards.
#[unsafe(no_mangle)]
pub extern "C" fn gidzork_sftp_free(alloc: Global, handle: &mut FilesHandle)
    ensures { handle.new.slot.held ≡ None }
{
    drop(handle.take(alloc));
}

/// Takes the next piece of what the client sends.
#[unsafe(no_mangle)]
pub extern "C" fn gidzork_sftp_feed(alloc: Global, handle: &mut FilesHandle, piece: &[u8]) -> u32
    ensures { FilesFed handle.old.slot.held piece.now handle.new.slot.held result }
{
    let Some(mut server) = handle.take(alloc) else {
        return NO_CONNECTION;
    };
    let code = server.feed_now(piece);
    handle.put(server);
    code
}

/// Takes out the next bytes of the answers.
#[unsafe(no_mangle)]
pub extern "C" fn gidzork_sftp_next(
    alloc: Global,
    handle: &mut FilesHandle,
    out: &mut [u8],
    count: &mut usize,
) -> u32
    ensures { FilesTold handle.old.slot.held handle.new.slot.held out.new count.new result }
{
    let Some(mut server) = handle.take(alloc) else {
        return NO_CONNECTION;
    };
    let code = server.next_now(out, count);
    handle.put(server);
    code
}

/// Says how the stream ended, where nothing more comes.
#[unsafe(no_mangle)]
pub extern "C" fn gidzork_sftp_end(alloc: Global, handle: &mut FilesHandle) -> u32
    ensures said { FilesEnd handle.old.slot.held result }
    ensures same { handle.new.slot.held ≡ handle.old.slot.held }
{
    let Some(server) = handle.take(alloc) else {
        return NO_CONNECTION;
    };
    let code = server.end_now();
    handle.put(server);
    code
}
