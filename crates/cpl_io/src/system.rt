// The disk of the system: each call is one of the system's, or two. It tells nothing: what they do is trusted.
ghost use Rattle.std.specs.Prelude.{◌≡◌, false, [], refl};
ghost use Rattle.cpl_io.specs.Disk.{Nothing};

use crate::failure::shelf_error;
use crate::{Disk, Found, ShelfError};
use std::alloc::Global;
use std::fs::{self, File, Metadata, OpenFile, OpenOptions};
use std::io::{self, ErrorKind, Write};
use std::os::unix::fs::{MetadataExt, OpenOptionsExt, lchown};
use std::path::PathBuf;
use std::rt::Files;

// Who may read and write a new file, before the process's mask takes its part.
const NEW_MODE: u32 = 0o666;

/// The files of the system, as the runtime reaches them.
#[derive(Drop)]
pub(crate) struct SystemDisk<R> {
    pub(crate) rt: R,
}

// Whether a path is one of the process's own open files.
fn is_open_file(path: &str) -> bool {
    path.starts_with("/proc/") || path.starts_with("/dev/fd/")
}

// What a path leads to, if it is followed no further.
fn look_at<R: Files>(rt: &R, alloc: Global, path: &str) -> io::Result<Found> {
    match fs::symlink_metadata(rt, path) {
        Ok(found) if found.is_symlink() => {
            let mut behind = PathBuf::from_str(alloc, path)?;
            behind.pop();
            behind.push(rt.read_link(alloc, path)?.as_path())?;
            Ok(Found::Link(behind.into_string()))
        }
        Ok(found) if found.is_file() => Ok(Found::File),
        Ok(_) => Ok(Found::Other),
        Err(error) if error.kind() == ErrorKind::NotFound => Ok(Found::Nothing),
        Err(error) => Err(error),
    }
}

// What is known of a file that may be written, if there is one.
fn writable<R: Files>(rt: &R, path: &str) -> io::Result<Option<Metadata>> {
    match OpenOptions::new().append(true).open(rt, path) {
        Ok(file) => Ok(Some(file.metadata()?)),
        Err(error) if error.kind() == ErrorKind::NotFound => Ok(None),
        Err(error) => Err(error),
    }
}

// A new file of this mode, or none where the path is taken.
fn create<R: Files>(rt: &R, path: &str, mode: u32) -> io::Result<Option<R::File>> {
    match OpenOptions::new()
        .write(true)
        .create_new(true)
        .mode(mode)
        .open(rt, path)
    {
        Ok(file) => Ok(Some(file)),
        Err(error) if error.kind() == ErrorKind::AlreadyExists => Ok(None),
        Err(error) => Err(error),
    }
}

// Whether the system doesn't let one wait for a folder: it may not be read, or lies where there is nothing to wait for.
fn is_no_waiting(error: &io::Error) -> bool {
    matches!(
        error.kind(),
        ErrorKind::PermissionDenied | ErrorKind::InvalidInput | ErrorKind::Unsupported
    )
}

// Waits until the folder of a path is on the disk.
fn sync_folder<R: Files>(rt: &R, alloc: Global, path: &str) -> io::Result<()> {
    let mut folder = PathBuf::from_str(alloc, path)?;
    folder.pop();
    if folder.as_str().is_empty() {
        folder.push(".")?;
    }
    File::open(rt, folder.as_path())?.sync_all()
}

impl<R: Files + Drop> Disk for SystemDisk<R> {
    type File = R::File;

    type Rights = Metadata;

    ghost told = { false };

    ghost removes = { false };

    ghost waits = { false };

    ghost place = { λ _ _. record { now = Nothing; before = [] } };

    ghost since = { λ _ _ _ had. had ≡ record { now = Nothing; before = [] } };

    ghost opened = { λ _. [] };

    ghost counts_now = { λ _ _ _. refl };

    ghost only_now = { λ _ _ _ had. had };

    fn look(&mut self, alloc: Global, name: &str) -> Result<Found, ShelfError> {
        if is_open_file(name) {
            return Ok(Found::Other);
        }
        look_at(&self.rt, alloc, name).map_err(|error| shelf_error(&error))
    }

    fn rights(&mut self, name: &str) -> Result<Option<Metadata>, ShelfError> {
        writable(&self.rt, name).map_err(|error| shelf_error(&error))
    }

    fn create(
        &mut self,
        name: &str,
        like: Option<&Metadata>,
    ) -> Result<Option<R::File>, ShelfError> {
        let mode = like.map_or(NEW_MODE, |like| like.mode() & 0o777);
        create(&self.rt, name, mode).map_err(|error| shelf_error(&error))
    }

    fn give_rights(&mut self, name: &str, file: &R::File, rights: &Metadata) {
        let _ = lchown(&self.rt, name, Some(rights.uid()), Some(rights.gid()));
        let _ = file.set_permissions(rights.permissions());
    }

    fn write(&mut self, file: &mut R::File, bytes: &[u8]) -> Result<usize, ShelfError> {
        match file.write_all(bytes) {
            Ok(()) => Ok(bytes.len()),
            Err(error) => Err(shelf_error(&error)),
        }
    }

    fn wait(&mut self, file: R::File) -> Result<(), ShelfError> {
        file.sync_all().map_err(|error| shelf_error(&error))
    }

    fn rename(&mut self, from: &str, to: &str) -> Result<(), ShelfError> {
        fs::rename(&self.rt, from, to).map_err(|error| shelf_error(&error))
    }

    fn remove(&mut self, name: &str) -> Result<(), ShelfError> {
        fs::remove_file(&self.rt, name).map_err(|error| shelf_error(&error))
    }

    fn wait_for_folder(&mut self, alloc: Global, name: &str) -> Result<(), ShelfError> {
        match sync_folder(&self.rt, alloc, name) {
            Err(error) if !is_no_waiting(&error) => Err(shelf_error(&error)),
            _ => Ok(()),
        }
    }
}
