// A file written whole on any disk: what was there before stands until all the new bytes are on the disk.
ghost use Rattle.std.specs.Prelude.{◌≡◌, ◌≢◌, ◌⊎◌, ℕ, List, [], true, false, IsTrue, Some, IfOk, OnOk, OnErr, IfSome, is_some, string_bytes};
ghost use Rattle.std.specs.Option.{option_map};
ghost use Rattle.cpl_io.specs.Disk.{File, Nothing, IsFile, Made};
ghost use Rattle.cpl_io.specs.Whole.{target, OldOrNew, AtEachMoment, OthersStood, Untouched, OthersUntouched};

use crate::{Disk, Found, ShelfError};
use std::alloc::{AllocError, Global};
use std::path::PathBuf;

// How many names a name leads through at most, itself included, so that 40 links lead nowhere.
const MOST_NAMES: u32 = 40;

// How many names for a partial file are tried.
const MOST_PARTS: u32 = 1_000;

/// Gives the file that a name leads to by symbolic links these bytes and no others, and answers true. Answers false, and does
/// nothing, where the name leads to no regular file but to anything else, as a pipe or a device.
///
/// The bytes go to a new file beside the old one, which is renamed to it once they are on the disk, and then the folder is
/// waited for.
pub fn write_whole<D: Disk>(
    alloc: Global,
    disk: &mut D,
    name: &str,
    bytes: &[u8],
) -> Result<bool, ShelfError>
    // At every moment of the call the name has its old bytes whole or the new ones, and so after a crash at that moment.
    ensures any_moment { IsTrue D.told → IfSome (target (D.place disk.old) name.now)
        (λ path. AtEachMoment D.since disk.old disk.new path (OldOrNew (D.place disk.old path) bytes.now)) }

    // All other names stand at every moment but for one partial file.
    ensures others { IsTrue D.told → OthersStood D.place D.since disk.old disk.new (target (D.place disk.old) name.now) }
    ensures answer { IsTrue D.told → IfOk result (λ written. written ≡ is_some (target (D.place disk.old) name.now)) }

    // After `Ok` the new bytes are there, on the disk.
    ensures ok { IsTrue D.told → IfSome (target (D.place disk.old) name.now)
        (λ path. OnOk result ((D.place disk.new path).now ≡ File bytes.now true)) }

    // And a crash brings nothing else back, where the system lets one wait for the folder.
    ensures durable { IsTrue D.told → IsTrue D.waits → IfSome (target (D.place disk.old) name.now)
        (λ path. OnOk result ((D.place disk.new path).before ≡ [])) }

    // A call that failed leaves no partial file.
    ensures err { IsTrue D.told → IsTrue D.removes → OnErr result ((other : List ℕ)
        → target (D.place disk.old) name.now ≢ Some other → (D.place disk.new other).now ≡ (D.place disk.old other).now) }
{
    match file_behind(alloc, disk, name)? {
        Some(path) => {
            replace(alloc, disk, path.as_str(), bytes)?;
            Ok(true)
        }
        None => Ok(false),
    }
}

// The path of the regular file, or of nothing, that a name leads to by symbolic links. None where it leads to anything else.
fn file_behind<D: Disk>(
    alloc: Global,
    disk: &mut D,
    name: &str,
) -> Result<Option<String>, ShelfError>
    ensures found { IsTrue D.told → IfOk result
        (λ path. option_map (λ path. string_bytes path) path ≡ target (D.place disk.old) name.now) }
    ensures untouched { IsTrue D.told → (other : _) → Untouched D.place D.since disk.old disk.new other }
{
    let mut path = String::from_str(alloc, name)?;
    for _ in 0..MOST_NAMES {
        match disk.look(alloc, path.as_str())? {
            Found::Nothing | Found::File => return Ok(Some(path)),
            Found::Link(behind) => path = behind,
            Found::Other => return Ok(None),
        }
    }
    Ok(None)
}

// Puts bytes in place of the file of a path, or of nothing.
fn replace<D: Disk>(alloc: Global, disk: &mut D, path: &str, bytes: &[u8]) -> Result<(), ShelfError>
    ensures any_moment { IsTrue D.told
        → AtEachMoment D.since disk.old disk.new path.now (OldOrNew (D.place disk.old path.now) bytes.now) }
    ensures others { IsTrue D.told → OthersStood D.place D.since disk.old disk.new (Some path.now) }
    ensures ok { IsTrue D.told → OnOk result ((D.place disk.new path.now).now ≡ File bytes.now true) }
    ensures durable { IsTrue D.told → IsTrue D.waits → OnOk result ((D.place disk.new path.now).before ≡ []) }
    ensures err { IsTrue D.told → IsTrue D.removes → OnErr result ((other : _)
        → other ≢ path.now → (D.place disk.new other).now ≡ (D.place disk.old other).now) }
{
    let old = disk.rights(path)?;
    let (part, file) = new_part(alloc, disk, path, old.as_ref())?;
    if let Some(old) = &old {
        disk.give_rights(part.as_str(), &file, old);
    }
    match put(disk, file, part.as_str(), path, bytes) {
        Ok(()) => disk.wait_for_folder(alloc, path),
        Err(error) => {
            let _ = disk.remove(part.as_str());
            Err(error)
        }
    }
}

// A new file beside that of a path, under a name that was free, with no more rights than another.
fn new_part<D: Disk>(
    alloc: Global,
    disk: &mut D,
    path: &str,
    like: Option<&D::Rights>,
) -> Result<(String, D::File), ShelfError>
    ensures other_name { IfOk result (λ made. string_bytes made.0 ≢ path.now) }
    ensures made { IsTrue D.told → IfOk result
        (λ made. Made D.opened made.1 (string_bytes made.0) (D.place disk.old) (D.place disk.new)) }
    ensures others { IsTrue D.told → IfOk result
        (λ made. OthersUntouched D.place D.since disk.old disk.new (string_bytes made.0)) }
    ensures err { IsTrue D.told → OnErr result ((other : _) → Untouched D.place D.since disk.old disk.new other) }
{
    for number in 0..MOST_PARTS {
        let Some(part) = part_beside(alloc, path, number)? else {
            continue;
        };
        if let Some(file) = disk.create(part.as_str(), like)? {
            return Ok((part, file));
        }
    }
    Err(ShelfError::Failed)
}

// The name of the partial file of this number in the folder of a path. None where that is the path itself.
fn part_beside(alloc: Global, path: &str, number: u32) -> Result<Option<String>, AllocError>
    ensures { IfOk result (λ part. IfSome part (λ part. string_bytes part ≢ path.now)) }
{
    let name = format!(in alloc; "coupler-part-{number}")?;
    if path.ends_with(name.as_str()) {
        return Ok(None);
    }
    let mut part = PathBuf::from_str(alloc, path)?;
    part.pop();
    part.push(name.as_str())?;
    let part = part.into_string();
    if part.as_str() == path {
        return Ok(None);
    }
    Ok(Some(part))
}

// Writes the bytes to a new file, waits until they are on the disk, and renames it.
fn put<D: Disk>(
    disk: &mut D,
    file: D::File,
    part: &str,
    path: &str,
    bytes: &[u8],
) -> Result<(), ShelfError>
    requires other_name { part.now ≢ path.now }
    requires opened { IsTrue D.told → D.opened file ≡ part.now }
    requires empty { IsTrue D.told → (D.place disk.old part.now).now ≡ File [] false }
    ensures any_moment { IsTrue D.told
        → AtEachMoment D.since disk.old disk.new path.now (OldOrNew (D.place disk.old path.now) bytes.now) }
    ensures others { IsTrue D.told
        → (other : _) → other ≢ part.now → other ≢ path.now → Untouched D.place D.since disk.old disk.new other }
    ensures ok { IsTrue D.told → OnOk result ((D.place disk.new path.now).now ≡ File bytes.now true) }
    ensures renamed { IsTrue D.told → OnOk result ((D.place disk.new part.now).now ≡ Nothing) }
    ensures err { IsTrue D.told → OnErr result (IsFile (D.place disk.new part.now).now ⊎ ((D.place disk.new part.now).now ≡ Nothing)) }
{
    let mut file = file;
    fill(disk, &mut file, bytes)?;
    disk.wait(file)?;
    disk.rename(part, path)
}

// Writes all the bytes to a new file.
fn fill<D: Disk>(disk: &mut D, file: &mut D::File, bytes: &[u8]) -> Result<(), ShelfError>
    requires { IsTrue D.told → (D.place disk.old (D.opened file.old)).now ≡ File [] false }
    ensures name { IsTrue D.told → D.opened file.new ≡ D.opened file.old }
    ensures others { IsTrue D.told → OthersUntouched D.place D.since disk.old disk.new (D.opened file.old) }
    ensures ok { IsTrue D.told → OnOk result ((D.place disk.new (D.opened file.old)).now ≡ File bytes.now false) }
    ensures err { IsTrue D.told → OnErr result (IsFile (D.place disk.new (D.opened file.old)).now) }
{
    let mut rest = bytes;
    while !rest.is_empty() {
        let count = disk.write(file, rest)?;
        if count == 0 {
            return Err(ShelfError::Failed);
        }
        rest = &rest[count..];
    }
    Ok(())
}
