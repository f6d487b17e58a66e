// What each request does with the files and the handles.
ghost use Rattle.std.specs.Prelude.{◌≡◌, Ok, Err, IfOk, IfErr, MatchResult};
ghost use Rattle.ssh_wire.specs.declared.error.WireError.TheVariants.{NoMemory};
ghost use Rattle.ssh_sftp_core.specs.Files.{outcome, says, file_of, read_part, place_of};
ghost use Rattle.ssh_sftp_core.specs.Handles.{one_of};
ghost use Rattle.ssh_sftp_core.specs.Requests.{Open, Close, Read, Write, Stat, Fstat, Remove};
ghost use Rattle.ssh_sftp_core.specs.Requests.{Rename};
ghost use Rattle.ssh_sftp_core.specs.Responses.{Report, told};

use super::Files;
use crate::handles::{Handles, Opened};
use crate::path::{ROOT, rooted_path};
use crate::tree::Tree;
use crate::{Response, Status, flag};
use ssh_wire::WireError;
use std::cmp::min;

/// The most bytes that one READ is answered.
const MOST_READ: u32 = 65536;

/// The most bytes that a file may have.
const MOST_BYTES: u64 = 16_777_216;

// The open handle that these bytes spell and its file; or why there is none.
fn find_file<'a>(
    tree: &'a Tree,
    handles: &'a Handles,
    handle: &[u8],
) -> Result<(&'a Opened, &'a Vec<u8>), Status>
    ensures { MatchResult result
        (λ found. file_of tree.now handles.now handle.now
        ≡ Ok (one_of found.0.now, found.1.now.items))
        (λ why. file_of tree.now handles.now handle.now ≡ Err why) }
{
    let Some(one) = handles.find(handle) else {
        return Err(Status::Failure);
    };
    match tree.get(&one.path) {
        Some(file) => Ok((one, file)),
        None => Err(Status::NoSuchFile),
    }
}

// What a handle with these flags reads of the file.
fn read_part(flags: u32, file: &[u8], offset: u64, most: u32) -> Response<'_>
    ensures { told result ≡ read_part flags file.now offset most }
{
    if flags & flag::READS == 0 {
        return Response::Status(Status::Failure);
    }
    if offset >= file.len() as u64 {
        return Response::Status(Status::Eof);
    }
    let rest = &file[offset as usize..];
    let count = min(most, MOST_READ) as usize;
    Response::Data(&rest[..min(count, rest.len())])
}

// Where a handle with these flags writes into a file of this size.
fn place_of(flags: u32, size: usize, offset: u64) -> u64
    ensures { result ≡ place_of flags size offset }
{
    if flags & flag::APPENDS != 0 {
        size as u64
    } else {
        offset
    }
}

impl Files {
    pub(super) fn open(&mut self, path: &[u8], flags: u32) -> Result<Response<'static>, WireError>
        ensures ok { IfOk result (λ response. outcome self.old (Open path.now flags)
            ≡ record { told = told response; after = self.new }) }
        ensures memory { IfErr result (λ e. e ≡ NoMemory) }
    {
        let full = rooted_path(self.alloc, path)?;
        let is_used = flags & flag::READS != 0 || flags & flag::WRITES != 0;
        if !is_used || full.as_slice() == ROOT || self.handles.are_full() {
            return Ok(Response::Status(Status::Failure));
        }
        match self.tree.open(&full, flags)? {
            Ok(()) => Ok(Response::Handle(self.handles.give(full, flags)?)),
            Err(why) => Ok(Response::Status(why)),
        }
    }

    pub(super) fn close(&mut self, handle: &[u8]) -> Status
        ensures { outcome self.old (Close handle.now)
            ≡ record { told = Report result; after = self.new } }
    {
        let Some(one) = self.handles.find(handle) else {
            return Status::Failure;
        };
        let number = one.number;
        self.handles.close(number);
        Status::Ok
    }

    pub(super) fn read(&self, handle: &[u8], offset: u64, most: u32) -> Response<'_>
        ensures { outcome self.now (Read handle.now offset most) ≡ says self.now (told result) }
    {
        match find_file(&self.tree, &self.handles, handle) {
            Ok((one, file)) => read_part(one.flags, file, offset, most),
            Err(why) => Response::Status(why),
        }
    }

    pub(super) fn write(
        &mut self,
        handle: &[u8],
        offset: u64,
        bytes: &[u8],
    ) -> Result<Status, WireError>
        ensures ok { IfOk result (λ status. outcome self.old (Write handle.now offset bytes.now)
            ≡ record { told = Report status; after = self.new }) }
        ensures memory { IfErr result (λ e. e ≡ NoMemory) }
    {
        let Some(one) = self.handles.find(handle) else {
            return Ok(Status::Failure);
        };
        let Some(file) = self.tree.get(&one.path) else {
            return Ok(Status::NoSuchFile);
        };
        if one.flags & flag::WRITES == 0 {
            return Ok(Status::Failure);
        }
        if bytes.is_empty() {
            return Ok(Status::Ok);
        }
        let place = place_of(one.flags, file.len(), offset);
        if place > MOST_BYTES || bytes.len() as u64 > MOST_BYTES - place {
            return Ok(Status::Failure);
        }
        self.tree.write(&one.path, place as usize, bytes)?;
        Ok(Status::Ok)
    }

    pub(super) fn stat(&self, path: &[u8]) -> Result<Response<'_>, WireError>
        ensures ok { IfOk result (λ response. outcome self.now (Stat path.now)
            ≡ says self.now (told response)) }
        ensures memory { IfErr result (λ e. e ≡ NoMemory) }
    {
        let full = rooted_path(self.alloc, path)?;
        match self.tree.get(&full) {
            Some(file) => Ok(Response::Size(file.len() as u64)),
            None => Ok(Response::Status(Status::NoSuchFile)),
        }
    }

    pub(super) fn fstat(&self, handle: &[u8]) -> Response<'_>
        ensures { outcome self.now (Fstat handle.now) ≡ says self.now (told result) }
    {
        match find_file(&self.tree, &self.handles, handle) {
            Ok((_, file)) => Response::Size(file.len() as u64),
            Err(why) => Response::Status(why),
        }
    }

    pub(super) fn remove(&mut self, path: &[u8]) -> Result<Status, WireError>
        ensures ok { IfOk result (λ status. outcome self.old (Remove path.now)
            ≡ record { told = Report status; after = self.new }) }
        ensures memory { IfErr result (λ e. e ≡ NoMemory) }
    {
        let full = rooted_path(self.alloc, path)?;
        match self.tree.take(&full) {
            Some(_) => Ok(Status::Ok),
            None => Ok(Status::NoSuchFile),
        }
    }

    pub(super) fn rename(&mut self, old: &[u8], new: &[u8]) -> Result<Status, WireError>
        ensures ok { IfOk result (λ status. outcome self.old (Rename old.now new.now)
            ≡ record { told = Report status; after = self.new }) }
        ensures memory { IfErr result (λ e. e ≡ NoMemory) }
    {
        let from = rooted_path(self.alloc, old)?;
        let to = rooted_path(self.alloc, new)?;
        if self.tree.get(&from).is_none() {
            return Ok(Status::NoSuchFile);
        }
        if self.tree.get(&to).is_some() {
            return Ok(Status::Failure);
        }
        let Some(file) = self.tree.take(&from) else {
            return Ok(Status::NoSuchFile);
        };
        self.tree.put(to, file)?;
        Ok(Status::Ok)
    }
}
