// The files of a server, and the answers to the packets of its client.
ghost use Rattle.std.specs.Prelude.{◌≡◌, ◌<◌, ◌++◌, length, drop, slice_index, Ok, Err};
ghost use Rattle.std.specs.Prelude.{MatchResult, IfErr, OnOk, OnErr};
ghost use Rattle.ssh_wire.specs.Field.{string};
ghost use Rattle.ssh_wire.specs.declared.error.WireError.TheVariants.{NoMemory};
ghost use Rattle.ssh_sftp_core.specs.Files.{Answers, answer, answer_with, fresh, heard, outcome};
ghost use Rattle.ssh_sftp_core.specs.Layouts.{said};
ghost use Rattle.ssh_sftp_core.specs.Requests.{asked};
ghost use Rattle.ssh_sftp_core.specs.Responses.{told, spelled};

mod requests;

use crate::handles::Handles;
use crate::path::rooted_path;
use crate::tree::Tree;
use crate::{Request, Response, Status, kind};
use ssh_wire::{WireError, put_bytes};
use std::alloc::Global;
use std::marker::Model;

/// The files of a server, the handles that its client has open, and whether the client began.
#[derive(Drop)]
pub struct Files {
    alloc: Global,
    tree: Tree,
    handles: Handles,
    started: bool,
}

impl Model for Files {
    ghost use Rattle.ssh_sftp_core.specs.Files.{State, state_code};

    ghost Value = { State };

    ghost coded = { state_code };

    ghost view = { λ f. record { files = f.tree; handles = f.handles; started = f.started } };
}

// Appends the packet that tells this, with its length in front: whole or not at all.
fn put_reply(
    alloc: Global,
    id: u32,
    response: &Response,
    out: &mut Vec<u8>,
) -> Result<(), WireError>
    ensures ok { OnOk result (out.new.items ≡ out.old.items
        ++ string (spelled id (told response.now))) }
    ensures memory { IfErr result (λ e. e ≡ NoMemory) }
    ensures err { OnErr result (out.new.items ≡ out.old.items) }
{
    let mut packet = Vec::new(alloc);
    if response.put(id, &mut packet).is_err() || put_bytes(out, &packet).is_err() {
        return Err(WireError::NoMemory);
    }
    Ok(())
}

// The type of a packet, the id or the version of INIT, and the body.
fn parts_of(packet: &[u8]) -> (u8, u32, &[u8])
    requires { 4 < length packet.now }
    ensures kind { result.0 ≡ slice_index packet.now 0 }
    ensures id { result.1 ≡ said (drop 1 packet.now) }
    ensures body { result.2.now ≡ drop 5 packet.now }
{
    let id = u32::from_be_bytes([packet[1], packet[2], packet[3], packet[4]]);
    (packet[0], id, &packet[5..])
}

impl Files {
    /// No files and no handles, before the client begins.
    pub fn new(alloc: Global) -> Files
        ensures { result ≡ fresh }
    {
        Files {
            alloc,
            tree: Tree::new(alloc),
            handles: Handles::new(alloc),
            started: false,
        }
    }

    // What a packet asks; before INIT nothing else is asked.
    fn heard<'a>(&self, packet_type: u8, body: &'a [u8]) -> Result<Request<'a>, Status>
        ensures { MatchResult result
            (λ request. heard self.now packet_type body.now ≡ Ok (asked request))
            (λ why. heard self.now packet_type body.now ≡ Err why) }
    {
        if !self.started && packet_type != kind::INIT {
            return Err(Status::BadMessage);
        }
        Request::parse(packet_type, body)
    }

    // Does what is asked, and puts out what is told.
    fn serve(&mut self, id: u32, request: Request, out: &mut Vec<u8>) -> Result<(), WireError>
        ensures ok { OnOk result (Answers (answer_with id (outcome self.old (asked request.entry)))
            self.new out.old.items out.new.items) }
        ensures memory { IfErr result (λ e. e ≡ NoMemory) }
        ensures err { OnErr result (out.new.items ≡ out.old.items) }
    {
        let alloc = self.alloc;
        match request {
            Request::Init => {
                self.started = true;
                put_reply(alloc, id, &Response::Version, out)
            }
            Request::Open { path, flags } => {
                let response = self.open(path, flags)?;
                put_reply(alloc, id, &response, out)
            }
            Request::Close { handle } => {
                let status = self.close(handle);
                put_reply(alloc, id, &Response::Status(status), out)
            }
            Request::Read {
                handle,
                offset,
                most,
            } => put_reply(alloc, id, &self.read(handle, offset, most), out),
            Request::Write {
                handle,
                offset,
                bytes,
            } => {
                let status = self.write(handle, offset, bytes)?;
                put_reply(alloc, id, &Response::Status(status), out)
            }
            Request::Stat { path } => {
                let response = self.stat(path)?;
                put_reply(alloc, id, &response, out)
            }
            Request::Fstat { handle } => put_reply(alloc, id, &self.fstat(handle), out),
            Request::Remove { path } => {
                let status = self.remove(path)?;
                put_reply(alloc, id, &Response::Status(status), out)
            }
            Request::RealPath { path } => {
                let full = rooted_path(alloc, path)?;
                put_reply(alloc, id, &Response::Name(&full), out)
            }
            Request::Rename { old, new } => {
                let status = self.rename(old, new)?;
                put_reply(alloc, id, &Response::Status(status), out)
            }
        }
    }

    /// Answers one packet, from its type byte on: appends the answer with its length in front
    /// (draft-ietf-secsh-filexfer-02 section 3). The one error is `NoMemory`: then `out` is as it
    /// was, and the files are not to be used again. It also stands for an answer that no length of
    /// four bytes can say, which needs a path of 2 GiB.
    pub fn answer(&mut self, packet: &[u8], out: &mut Vec<u8>) -> Result<(), WireError>
        requires { 4 < length packet.now }
        ensures answered { OnOk result (Answers (answer self.old packet.now) self.new
            out.old.items out.new.items) }
        ensures memory { IfErr result (λ e. e ≡ NoMemory) }
        ensures err { OnErr result (out.new.items ≡ out.old.items) }
    {
        let (packet_type, id, body) = parts_of(packet);
        match self.heard(packet_type, body) {
            Ok(request) => self.serve(id, request, out),
            Err(why) => put_reply(self.alloc, id, &Response::Status(why), out),
        }
    }
}
