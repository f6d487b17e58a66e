// The files: bytes under paths.
ghost use Rattle.std.specs.Prelude.{◌≡◌, ◌+◌, ◌-◌, replicate, ◌<◌, ◌≤◌, ◌^◌, ◌++◌, [], length};
ghost use Rattle.std.specs.Prelude.{take, drop, option_map};
ghost use Rattle.std.specs.Prelude.{Ok, Err, IfOk, OnOk, IfErr, IfSome, IfNone, MatchResult};
ghost use Rattle.std.specs.FinMap as map;
ghost use Rattle.ssh_wire.specs.declared.error.WireError.TheVariants.{NoMemory};
ghost use Rattle.ssh_sftp_core.specs.Files.{overwritten, opened_file};

use crate::{Status, flag};
use ssh_wire::WireError;
use std::alloc::{AllocError, Global};
use std::collections::BTreeMap;
use std::marker::Model;

/// The files of a server, as a map from paths to bytes.
#[derive(Drop)]
pub(crate) struct Tree {
    alloc: Global,
    files: BTreeMap<Vec<u8>, Vec<u8>>,
}

impl Model for Tree {
    ghost use Rattle.std.specs.Coded.{coded_ℕ, coded_list};
    ghost use Rattle.std.specs.FinMap as map;
    ghost use Rattle.ssh_sftp_core.specs.Trees.{Tree, tree_of};

    ghost Value = { Tree };

    ghost coded = { map.code (coded_list coded_ℕ) (coded_list coded_ℕ) };

    ghost view = { λ t. tree_of t.files.entries };
}

// Puts the bytes over what stands there.
fn replace(file: &mut [u8], offset: usize, bytes: &[u8])
    requires { offset + length bytes.now ≤ length file.old }
    ensures { file.new ≡ take offset file.old ++ bytes.now
        ++ drop (offset + length bytes.now) file.old }
{
    let (_, tail) = file.split_at_mut(offset);
    let (place, _) = tail.split_at_mut(bytes.len());
    place.copy_from_slice(bytes);
}

// Makes the file at least that long, with zeros at its end.
fn lengthen(file: &mut Vec<u8>, size: usize) -> Result<(), AllocError>
    ensures ok { OnOk result (file.new.items
        ≡ file.old.items ++ replicate (size - length file.old.items) 0) }
{
    if file.len() < size {
        file.resize(size, 0)?;
    }
    Ok(())
}

// Puts the bytes at the offset; a gap before them is filled with zeros.
fn overwrite(file: &mut Vec<u8>, offset: usize, bytes: &[u8]) -> Result<(), AllocError>
    requires { offset + length bytes.now < 2 ^ 63 }
    ensures ok { OnOk result (file.new.items ≡ overwritten file.old.items offset bytes.now) }
{
    lengthen(file, offset + bytes.len())?;
    replace(file, offset, bytes);
    Ok(())
}

impl Tree {
    pub(crate) fn new(alloc: Global) -> Tree
        ensures { result ≡ map.empty }
    {
        Tree {
            alloc,
            files: BTreeMap::new(alloc),
        }
    }

    // The bytes under the path.
    pub(crate) fn get(&self, path: &[u8]) -> Option<&Vec<u8>>
        ensures { option_map (λ file. file.now.items) result ≡ map.get self.now path.now }
    {
        self.files.get(path)
    }

    // Puts the bytes under the path, in place of what stood there.
    pub(crate) fn put(&mut self, path: Vec<u8>, bytes: Vec<u8>) -> Result<(), WireError>
        ensures ok { OnOk result (self.new ≡ map.insert self.old path.items bytes.items) }
        ensures memory { IfErr result (λ e. e ≡ NoMemory) }
    {
        match self.files.insert(path, bytes) {
            Ok(_) => Ok(()),
            Err(_) => Err(WireError::NoMemory),
        }
    }

    // Makes the file empty, whether it is there or not.
    fn put_empty(&mut self, path: &[u8]) -> Result<(), WireError>
        ensures ok { OnOk result (self.new ≡ map.insert self.old path.now []) }
        ensures memory { IfErr result (λ e. e ≡ NoMemory) }
    {
        let mut own = Vec::new(self.alloc);
        own.extend_from_slice(path)?;
        self.put(own, Vec::new(self.alloc))
    }

    // What OPEN with these flags does with the file under the path, or why it refuses; then all is
    // as it was.
    pub(crate) fn open(&mut self, path: &[u8], flags: u32) -> Result<Result<(), Status>, WireError>
        ensures opened { IfOk result (λ opened. MatchResult opened
            (λ _. opened_file self.old path.now flags (map.get self.old path.now) ≡ Ok self.new)
            (λ why. (opened_file self.old path.now flags (map.get self.old path.now) ≡ Err why)
            × (self.new ≡ self.old))) }
        ensures memory { IfErr result (λ e. e ≡ NoMemory) }
    {
        let creates = flags & flag::CREATES != 0;
        let is_there = self.get(path).is_some();
        if !is_there && !creates {
            return Ok(Err(Status::NoSuchFile));
        }
        if is_there && creates && flags & flag::IS_NEW != 0 {
            return Ok(Err(Status::Failure));
        }
        if is_there && flags & flag::TRUNCATES == 0 {
            return Ok(Ok(()));
        }
        self.put_empty(path)?;
        Ok(Ok(()))
    }

    // Takes the bytes out from under the path.
    pub(crate) fn take(&mut self, path: &[u8]) -> Option<Vec<u8>>
        ensures found { option_map (λ file. file.items) result ≡ map.get self.old path.now }
        ensures without { self.new ≡ map.remove self.old path.now }
        ensures unchanged { IfNone result (self.new ≡ self.old) }
    {
        self.files.remove(path)
    }

    // Puts the bytes at the offset of the file under the path, where there is one.
    pub(crate) fn write(
        &mut self,
        path: &[u8],
        offset: usize,
        bytes: &[u8],
    ) -> Result<(), WireError>
        requires { offset + length bytes.now < 2 ^ 63 }
        ensures ok { OnOk result (IfSome (map.get self.old path.now) (λ file.
            self.new ≡ map.insert self.old path.now (overwritten file offset bytes.now))) }
        ensures memory { IfErr result (λ e. e ≡ NoMemory) }
    {
        if let Some(file) = self.files.get_mut(path) {
            overwrite(file, offset, bytes)?;
        }
        Ok(())
    }
}
