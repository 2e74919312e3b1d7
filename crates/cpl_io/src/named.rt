// Files in memory, seen as a finite map from names to bytes.
ghost use Rattle.std.specs.Prelude.{◌≡◌, ◌<◌, ◌≤◌, ◌++◌, [], length, OnOk};
ghost use Rattle.std.specs.Option.{option_map};
ghost use Rattle.std.specs.FinMap as map;
ghost use Rattle.cpl_io.specs.Files.{Has, OthersStand, ReadsAt, bytes_of};

use std::alloc::{AllocError, Global};
use std::collections::BTreeMap;
use std::marker::Model;

/// Files by their names, each with its bytes.
#[derive(Drop)]
pub(crate) struct NamedFiles {
    alloc: Global,
    map: BTreeMap<String, Vec<u8>>,
}

impl Model for NamedFiles {
    ghost use Rattle.cpl_io.specs.Files.{Files, coded_files};
    ghost use Rattle.cpl_io.specs.Texts.{files_of};

    ghost Value = { Files };

    ghost coded = { coded_files };

    ghost view = { λ a. files_of a.map.entries };
}

impl NamedFiles {
    /// No file.
    pub(crate) fn new(alloc: Global) -> NamedFiles
        ensures { result ≡ map.empty }
    {
        NamedFiles {
            alloc,
            map: BTreeMap::new(alloc),
        }
    }

    /// The bytes of the name, and none where there is no such file.
    pub(crate) fn get(&self, name: &str) -> Option<&[u8]>
        ensures { option_map (λ bytes. bytes.now) result ≡ map.get self.now name.now }
    {
        match self.map.get(name) {
            Some(bytes) => Some(bytes.as_slice()),
            None => None,
        }
    }

    /// Gives the name these bytes, in place of those that it had.
    pub(crate) fn put(&mut self, name: &str, bytes: &[u8]) -> Result<(), AllocError>
        ensures ok { OnOk result (Has self.new name.now bytes.now) }
        ensures others { OthersStand self.old self.new name.now }
    {
        let key = String::from_str(self.alloc, name)?;
        let bytes = bytes.to_vec(self.alloc)?;
        self.map.insert(key, bytes)?;
        Ok(())
    }

    /// Adds the bytes at the name's end.
    pub(crate) fn extend(&mut self, name: &str, bytes: &[u8]) -> Result<(), AllocError>
        ensures ok { OnOk result (Has self.new name.now (bytes_of self.old name.now ++ bytes.now)) }
        ensures others { OthersStand self.old self.new name.now }
    {
        match self.map.get_mut(name) {
            Some(file) => file.extend_from_slice(bytes),
            None => self.put(name, bytes),
        }
    }

    /// Copies the bytes of the name from a place on, as many as there are and `buf` has room for.
    pub(crate) fn copy_from(&self, name: &str, from: u64, buf: &mut [u8]) -> usize
        requires { 0 < length buf.old }
        ensures bound { result ≤ length buf.new }
        ensures bytes { ReadsAt (bytes_of self.now name.now) from result buf.new }
    {
        match self.get(name) {
            Some(file) => copy_from(file, from, buf),
            None => 0,
        }
    }
}

// Copies what stands from a place on.
fn copy_from(file: &[u8], from: u64, buf: &mut [u8]) -> usize
    requires { 0 < length buf.old }
    ensures bound { result ≤ length buf.new }
    ensures bytes { ReadsAt file.now from result buf.new }
{
    if from >= file.len() as u64 {
        return 0;
    }
    let rest = &file[from as usize..];
    let count = rest.len().min(buf.len());
    buf[..count].copy_from_slice(&rest[..count]);
    count
}
