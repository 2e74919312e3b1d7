// A disk in memory, with what is only in memory of it and what a crash may bring back. From some call on each call fails, as
// after a crash; a writing takes a few bytes at most; and it may be full.
ghost use Rattle.std.specs.Prelude.{◌≡◌, false, [], refl};
ghost use Rattle.cpl_io.specs.Disk.{Nothing};

use cpl_io::{Disk, Found, ShelfError};
use std::alloc::{AllocError, Global};
use std::collections::BTreeMap;
use std::mem;

/// A file: its bytes, and whether all of them are on the disk.
#[derive(Drop)]
pub(crate) struct FakeFile {
    pub(crate) bytes: Vec<u8>,
    pub(crate) is_kept: bool,
}

/// A name: the file that it leads to, and those that a crash may bring back in its place.
#[derive(Drop)]
pub(crate) struct FakePlace {
    pub(crate) now: Option<FakeFile>,
    pub(crate) before: Vec<Option<FakeFile>>,
}

#[derive(Drop)]
pub(crate) struct FakeDisk {
    alloc: Global,
    pub(crate) places: BTreeMap<String, FakePlace>,
    // How many calls are answered before all others fail.
    calls: u32,
    // How many bytes a writing takes at most, and for how many there is room.
    piece: usize,
    room: usize,
}

impl FakeDisk {
    /// A disk with no file.
    pub(crate) fn new(alloc: Global, calls: u32, piece: usize, room: usize) -> FakeDisk {
        FakeDisk {
            alloc,
            places: BTreeMap::new(alloc),
            calls,
            piece,
            room,
        }
    }

    /// Gives a name a file that is on the disk.
    pub(crate) fn store(&mut self, name: &str, bytes: &[u8]) -> Result<(), AllocError> {
        let place = FakePlace {
            now: Some(FakeFile {
                bytes: bytes.to_vec(self.alloc)?,
                is_kept: true,
            }),
            before: Vec::new(self.alloc),
        };
        let name = String::from_str(self.alloc, name)?;
        match self.places.insert(name, place) {
            Ok(_) => Ok(()),
            Err(_) => Err(AllocError),
        }
    }

    // Counts a call, which fails where none is left.
    fn count(&mut self) -> Result<(), ShelfError> {
        if self.calls == 0 {
            return Err(ShelfError::Failed);
        }
        self.calls -= 1;
        Ok(())
    }

    fn is_taken(&self, name: &str) -> bool {
        self.places
            .get(name)
            .is_some_and(|place| place.now.is_some())
    }

    // Lets a name lead to another file, or to none. A crash may bring back what it led to before.
    fn turn(&mut self, name: &str, now: Option<FakeFile>) -> Result<(), ShelfError> {
        if let Some(place) = self.places.get_mut(name) {
            let old = mem::replace(&mut place.now, now);
            return place.before.push(old).map_err(|_| ShelfError::Memory);
        }
        let key = String::from_str(self.alloc, name)?;
        let mut before = Vec::new(self.alloc);
        before.push(None).map_err(|_| ShelfError::Memory)?;
        match self.places.insert(key, FakePlace { now, before }) {
            Ok(_) => Ok(()),
            Err(_) => Err(ShelfError::Memory),
        }
    }
}

impl Disk for FakeDisk {
    type File = String;

    type Rights = ();

    ghost told = { false };

    ghost removes = { false };

    ghost waits = { false };

    ghost place = { λ _ _. record { now = Nothing; before = [] } };

    ghost since = { λ _ _ _ had. had ≡ record { now = Nothing; before = [] } };

    ghost opened = { λ _. [] };

    ghost counts_now = { λ _ _ _. refl };

    ghost only_now = { λ _ _ _ had. had };

    fn look(&mut self, _alloc: Global, name: &str) -> Result<Found, ShelfError> {
        self.count()?;
        if name == "pipe" {
            return Ok(Found::Other);
        }
        if self.is_taken(name) {
            Ok(Found::File)
        } else {
            Ok(Found::Nothing)
        }
    }

    fn rights(&mut self, name: &str) -> Result<Option<()>, ShelfError> {
        self.count()?;
        Ok(self.is_taken(name).then_some(()))
    }

    fn create(&mut self, name: &str, _like: Option<&()>) -> Result<Option<String>, ShelfError> {
        self.count()?;
        if self.is_taken(name) {
            return Ok(None);
        }
        let file = FakeFile {
            bytes: Vec::new(self.alloc),
            is_kept: false,
        };
        self.turn(name, Some(file))?;
        Ok(Some(String::from_str(self.alloc, name)?))
    }

    fn give_rights(&mut self, _name: &str, _file: &String, _rights: &()) {}

    fn write(&mut self, file: &mut String, bytes: &[u8]) -> Result<usize, ShelfError> {
        self.count()?;
        let count = bytes.len().min(self.piece).min(self.room);
        if let Some(FakePlace { now: Some(old), .. }) = self.places.get_mut(file.as_str()) {
            old.bytes.extend_from_slice(&bytes[..count])?;
        }
        self.room -= count;
        Ok(count)
    }

    fn wait(&mut self, file: String) -> Result<(), ShelfError> {
        self.count()?;
        if let Some(FakePlace { now: Some(old), .. }) = self.places.get_mut(file.as_str()) {
            old.is_kept = true;
        }
        Ok(())
    }

    fn rename(&mut self, from: &str, to: &str) -> Result<(), ShelfError> {
        self.count()?;
        let file = match self.places.get_mut(from) {
            Some(place) => place.now.take(),
            None => return Err(ShelfError::Failed),
        };
        self.turn(to, file)
    }

    fn remove(&mut self, name: &str) -> Result<(), ShelfError> {
        self.count()?;
        self.turn(name, None)
    }

    fn wait_for_folder(&mut self, _alloc: Global, name: &str) -> Result<(), ShelfError> {
        self.count()?;
        if let Some(place) = self.places.get_mut(name) {
            place.before.clear();
        }
        Ok(())
    }
}
