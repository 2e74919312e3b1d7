// A disk, as far as a file is written to it whole.
ghost use Rattle.std.specs.Prelude.{◌≡◌, ◌≢◌, ◌≤◌, ℕ, Bool, List, length, IsTrue, IsOk, IfOk};
ghost use Rattle.cpl_io.specs.Disk.{Place, AllAre, Shows, Makes, Adds, Keeps, Renames, Removes, Settles, Elapses, IsFile};

use crate::ShelfError;
use std::alloc::Global;

/// What a name leads to.
#[derive(Drop)]
pub enum Found {
    /// Nothing has this name.
    Nothing,
    /// A regular file.
    File,
    /// A symbolic link, with the path that it leads to.
    Link(String),
    /// Anything else, as a folder, a pipe, a device, or an open file of the process.
    Other,
}

/// A disk, by the calls that writing a file whole takes. A name is a path.
///
/// For each name it has what the name leads to and what a crash may bring back in its place; of a file it has the bytes, as the
/// system shows them, and whether all of them are on the disk. A crash, of the program or of the machine and at any moment,
/// leaves of each name one of these, and of bytes that are only in memory any others. Two spellings of one path are two names,
/// and nobody else writes meanwhile. Defined by this project, after what POSIX says of `open`, `write`, `fsync`, `rename` and
/// `unlink`.
pub trait Disk {
    /// A new file that is open for writing.
    type File: Drop;

    /// Who may read and write a file, and whose it is.
    type Rights: Drop;

    /// Whether such a disk tells what it has.
    ghost told: { Bool };

    /// Whether a file that is there can always be removed.
    ghost removes: { Bool };

    /// Whether it lets one wait until a folder is on the disk.
    ghost waits: { Bool };

    /// What a name leads to, and what a crash at this moment may bring back in its place.
    ghost place: { Self → List ℕ → Place };

    /// What a name had at some moment from the first disk on up to the second.
    ghost since: { Self → Self → List ℕ → Place → Type 0 };

    /// The name that a new file was made under.
    ghost opened: { Self.File → List ℕ };

    /// What a name leads to. A link is not followed.
    fn look(&mut self, alloc: Global, name: &str) -> Result<Found, ShelfError>
        ensures found { IsTrue told → IfOk result (λ found. Shows found (place self.old name.now).now) }
        ensures same { IsTrue told → AllAre (place self.old) (place self.new) }
        ensures time { IsTrue told → Elapses place since self.old self.new };

    /// The rights of the file of a name, and none where there is no file. Fails where the file may not be written.
    fn rights(&mut self, name: &str) -> Result<Option<Self::Rights>, ShelfError>
        ensures same { IsTrue told → AllAre (place self.old) (place self.new) }
        ensures time { IsTrue told → Elapses place since self.old self.new };

    /// Makes a new file with no more rights than those of `like`, and opens it for writing. None where the name is taken.
    fn create(
        &mut self,
        name: &str,
        like: Option<&Self::Rights>,
    ) -> Result<Option<Self::File>, ShelfError>
        ensures made { IsTrue told → Makes opened name.now (place self.old) (place self.new) result }
        ensures time { IsTrue told → Elapses place since self.old self.new };

    /// Gives a new file rights, as far as the system lets it.
    fn give_rights(&mut self, name: &str, file: &Self::File, rights: &Self::Rights)
        ensures same { IsTrue told → AllAre (place self.old) (place self.new) }
        ensures time { IsTrue told → Elapses place since self.old self.new };

    /// Adds a front of the bytes to a new file, and says how many.
    fn write(&mut self, file: &mut Self::File, bytes: &[u8]) -> Result<usize, ShelfError>
        ensures bound { IfOk result (λ count. count ≤ length bytes.now) }
        ensures name { IsTrue told → opened file.new ≡ opened file.old }
        ensures added { IsTrue told → Adds (opened file.old) bytes.now (place self.old) (place self.new) result }
        ensures time { IsTrue told → Elapses place since self.old self.new };

    /// Waits until all bytes of a new file are on the disk, and closes it.
    fn wait(&mut self, file: Self::File) -> Result<(), ShelfError>
        ensures kept { IsTrue told → Keeps (opened file) (place self.old) (place self.new) result }
        ensures time { IsTrue told → Elapses place since self.old self.new };

    /// Lets the second name lead to what the first one did, in one step.
    fn rename(&mut self, from: &str, to: &str) -> Result<(), ShelfError>
        requires { from.now ≢ to.now }
        ensures renamed { IsTrue told → Renames from.now to.now (place self.old) (place self.new) result }
        ensures time { IsTrue told → Elapses place since self.old self.new };

    /// Removes a file.
    fn remove(&mut self, name: &str) -> Result<(), ShelfError>
        ensures removed { IsTrue told → Removes name.now (place self.old) (place self.new) result }
        ensures sure { IsTrue told → IsTrue removes → IsFile (place self.old name.now).now → IsOk result }
        ensures time { IsTrue told → Elapses place since self.old self.new };

    /// Waits until it is on the disk what a name leads to, where the system lets it.
    fn wait_for_folder(&mut self, alloc: Global, name: &str) -> Result<(), ShelfError>
        ensures settled { IsTrue told → Settles waits name.now (place self.old) (place self.new) result }
        ensures time { IsTrue told → Elapses place since self.old self.new };

    /// This moment is one of those up to it.
    ghost counts_now: { (first disk : Self) (name : List ℕ) → since first disk name (place disk name) };

    /// From this moment on up to it there is no other.
    ghost only_now: { (disk : Self) (name : List ℕ) (had : Place) → since disk disk name had → had ≡ place disk name };
}
