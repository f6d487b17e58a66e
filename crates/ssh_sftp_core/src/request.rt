// What a packet asks.
ghost use Rattle.std.specs.Prelude.{◌≡◌, [], ◌∷◌, Some, None, MatchResult, Ok, Err};
ghost use Rattle.ssh_wire.specs.Field.{Number, Long, Bytes};
ghost use Rattle.ssh_sftp_core.specs.declared.status.Status.TheVariants.{BadMessage};
ghost use Rattle.ssh_sftp_core.specs.Layouts.{decoded};
ghost use Rattle.ssh_sftp_core.specs.Requests.{Open, asked, asked_by, opens};

use crate::attributes::skip_attributes;
use crate::{Status, kind};
use ssh_wire::Reader;

/// What a client asks for (draft-ietf-secsh-filexfer-02 sections 4 and 6). Paths and handles are
/// the bytes that it sent.
#[derive(Clone, Copy, Debug, PartialEq, Eq)]
pub enum Request<'a> {
    /// That the two begin (section 4).
    Init,
    /// A handle of a file (section 6.3).
    Open {
        /// The file.
        path: &'a [u8],
        /// What the handle is for, and what becomes of the file.
        flags: u32,
    },
    /// That a handle is given up (section 6.3).
    Close {
        /// The handle.
        handle: &'a [u8],
    },
    /// Bytes of a file (section 6.4).
    Read {
        /// The handle of the file.
        handle: &'a [u8],
        /// How many bytes stand before the first that is wanted.
        offset: u64,
        /// How many bytes are wanted at most.
        most: u32,
    },
    /// That bytes stand in a file (section 6.4).
    Write {
        /// The handle of the file.
        handle: &'a [u8],
        /// How many bytes stand before them.
        offset: u64,
        /// The bytes.
        bytes: &'a [u8],
    },
    /// The attributes of a file: STAT, and LSTAT, which is the same without links (section 6.8).
    Stat {
        /// The file.
        path: &'a [u8],
    },
    /// The attributes of a file that is open (section 6.8).
    Fstat {
        /// The handle of the file.
        handle: &'a [u8],
    },
    /// That a file is removed (section 6.5).
    Remove {
        /// The file.
        path: &'a [u8],
    },
    /// The full name of a path (section 6.11).
    RealPath {
        /// The path.
        path: &'a [u8],
    },
    /// That a file gets another path (section 6.5).
    Rename {
        /// The path that it has.
        old: &'a [u8],
        /// The path that it gets.
        new: &'a [u8],
    },
}

// One string and nothing else.
fn one_string(body: &[u8]) -> Result<&[u8], Status>
    ensures { MatchResult result (λ text. decoded (Bytes ∷ []) body.now ≡ Some (text.now, tt))
        (λ why. (why ≡ BadMessage) × (decoded (Bytes ∷ []) body.now ≡ None)) }
{
    let mut reader = Reader::new(body);
    let text = reader.bytes()?;
    reader.end()?;
    Ok(text)
}

// Two strings and nothing else.
fn two_strings(body: &[u8]) -> Result<(&[u8], &[u8]), Status>
    ensures { MatchResult result
        (λ x. decoded (Bytes ∷ Bytes ∷ []) body.now ≡ Some (x.0.now, (x.1.now, tt)))
        (λ why. (why ≡ BadMessage) × (decoded (Bytes ∷ Bytes ∷ []) body.now ≡ None)) }
{
    let mut reader = Reader::new(body);
    let first = reader.bytes()?;
    let second = reader.bytes()?;
    reader.end()?;
    Ok((first, second))
}

// The handle, the offset and the length of a READ.
fn read_fields(body: &[u8]) -> Result<(&[u8], u64, u32), Status>
    ensures { MatchResult result
        (λ x. decoded (Bytes ∷ Long ∷ Number ∷ []) body.now ≡ Some (x.0.now, (x.1, (x.2, tt))))
        (λ why. (why ≡ BadMessage) × (decoded (Bytes ∷ Long ∷ Number ∷ []) body.now ≡ None)) }
{
    let mut reader = Reader::new(body);
    let handle = reader.bytes()?;
    let offset = reader.u64()?;
    let most = reader.u32()?;
    reader.end()?;
    Ok((handle, offset, most))
}

// The handle, the offset and the bytes of a WRITE.
fn write_fields(body: &[u8]) -> Result<(&[u8], u64, &[u8]), Status>
    ensures { MatchResult result
        (λ x. decoded (Bytes ∷ Long ∷ Bytes ∷ []) body.now ≡ Some (x.0.now, (x.1, (x.2.now, tt))))
        (λ why. (why ≡ BadMessage) × (decoded (Bytes ∷ Long ∷ Bytes ∷ []) body.now ≡ None)) }
{
    let mut reader = Reader::new(body);
    let handle = reader.bytes()?;
    let offset = reader.u64()?;
    let bytes = reader.bytes()?;
    reader.end()?;
    Ok((handle, offset, bytes))
}

// The path and the flags of an OPEN; the attributes are read and not used.
fn open_fields(body: &[u8]) -> Result<(&[u8], u32), Status>
    ensures { MatchResult result (λ x. opens body.now ≡ Ok (Open x.0.now x.1))
        (λ why. (why ≡ BadMessage) × (opens body.now ≡ Err why)) }
{
    let mut reader = Reader::new(body);
    let path = reader.bytes()?;
    let flags = reader.u32()?;
    skip_attributes(&mut reader)?;
    reader.end()?;
    Ok((path, flags))
}

impl<'a> Request<'a> {
    /// What a packet of this type asks by its body, which is what follows the four bytes of the id,
    /// or of the version of INIT. `BadMessage` where the body does not fit the layout of its type,
    /// `Unsupported` at another type.
    pub fn parse(packet_type: u8, body: &'a [u8]) -> Result<Request<'a>, Status>
        ensures { MatchResult result
            (λ request. asked_by packet_type body.now ≡ Ok (asked request))
            (λ why. asked_by packet_type body.now ≡ Err why) }
    {
        match packet_type {
            kind::INIT => Ok(Request::Init),
            kind::OPEN => {
                let (path, flags) = open_fields(body)?;
                Ok(Request::Open { path, flags })
            }
            kind::CLOSE => Ok(Request::Close {
                handle: one_string(body)?,
            }),
            kind::READ => {
                let (handle, offset, most) = read_fields(body)?;
                Ok(Request::Read {
                    handle,
                    offset,
                    most,
                })
            }
            kind::WRITE => {
                let (handle, offset, bytes) = write_fields(body)?;
                Ok(Request::Write {
                    handle,
                    offset,
                    bytes,
                })
            }
            kind::STAT | kind::LSTAT => Ok(Request::Stat {
                path: one_string(body)?,
            }),
            kind::FSTAT => Ok(Request::Fstat {
                handle: one_string(body)?,
            }),
            kind::REMOVE => Ok(Request::Remove {
                path: one_string(body)?,
            }),
            kind::REALPATH => Ok(Request::RealPath {
                path: one_string(body)?,
            }),
            kind::RENAME => {
                let (old, new) = two_strings(body)?;
                Ok(Request::Rename { old, new })
            }
            _ => Err(Status::Unsupported),
        }
    }
}
