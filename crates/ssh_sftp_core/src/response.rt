// What the server tells.
ghost use Rattle.std.specs.Prelude.{◌≡◌, ◌++◌, ◌∷◌, OnOk};
ghost use Rattle.ssh_wire.specs.Field.{number};
ghost use Rattle.ssh_wire.specs.Messages.{written};
ghost use Rattle.ssh_sftp_core.specs.Responses.{Report, Name, told, spelled, version};

use crate::{Status, kind};
use ssh_wire::{WireError, put_bytes, put_text, put_u8, put_u32, put_u64};

/// What the server tells in answer to one request (draft-ietf-secsh-filexfer-02 sections 4 and 7).
#[derive(Clone, Copy, Debug, PartialEq, Eq)]
pub enum Response<'a> {
    /// That the two speak version 3 (section 4).
    Version,
    /// How the request came out.
    Status(Status),
    /// The handle that is given: its number, which is spelled in four bytes.
    Handle(u32),
    /// Bytes of a file.
    Data(&'a [u8]),
    /// The size of a file in bytes, the one attribute that is told (section 5).
    Size(u64),
    /// The full name of a path.
    Name(&'a [u8]),
}

const VERSION: u32 = 3;

// The flag of the attributes by which a size is there (section 5).
const HAS_SIZE: u32 = 1;

// The type and the id, with which every packet but VERSION begins (section 3).
fn put_head(packet_type: u8, id: u32, packet: &mut Vec<u8>) -> Result<(), WireError>
    ensures { OnOk result (packet.new.items ≡ packet.old.items ++ packet_type ∷ number id) }
{
    put_u8(packet, packet_type)?;
    put_u32(packet, id)
}

fn put_version(packet: &mut Vec<u8>) -> Result<(), WireError>
    ensures { OnOk result (packet.new.items ≡ packet.old.items ++ written version (3, tt)) }
{
    put_u8(packet, kind::VERSION)?;
    put_u32(packet, VERSION)
}

fn put_status(id: u32, status: Status, packet: &mut Vec<u8>) -> Result<(), WireError>
    ensures { OnOk result (packet.new.items ≡ packet.old.items ++ spelled id (Report status)) }
{
    put_head(kind::STATUS, id, packet)?;
    put_u32(packet, status.code())?;
    put_text(packet, status.message())?;
    put_text(packet, "")
}

fn put_name(id: u32, path: &[u8], packet: &mut Vec<u8>) -> Result<(), WireError>
    ensures { OnOk result (packet.new.items ≡ packet.old.items ++ spelled id (Name path.now)) }
{
    put_head(kind::NAME, id, packet)?;
    put_u32(packet, 1)?;
    put_bytes(packet, path)?;
    put_bytes(packet, path)?;
    put_u32(packet, 0)
}

impl Response<'_> {
    /// Appends the packet that tells this in answer to the request of this id, without its length.
    /// An error may leave a part of it.
    pub fn put(&self, id: u32, packet: &mut Vec<u8>) -> Result<(), WireError>
        ensures { OnOk result (packet.new.items ≡ packet.old.items ++ spelled id (told self.now)) }
    {
        match *self {
            Response::Version => put_version(packet),
            Response::Status(status) => put_status(id, status, packet),
            Response::Handle(number) => {
                put_head(kind::HANDLE, id, packet)?;
                put_bytes(packet, &number.to_be_bytes())
            }
            Response::Data(bytes) => {
                put_head(kind::DATA, id, packet)?;
                put_bytes(packet, bytes)
            }
            Response::Size(size) => {
                put_head(kind::ATTRS, id, packet)?;
                put_u32(packet, HAS_SIZE)?;
                put_u64(packet, size)
            }
            Response::Name(path) => put_name(id, path, packet),
        }
    }
}
