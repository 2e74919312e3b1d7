// Tests of writing a file whole, on a disk that crashes, is full or takes a few bytes at a time.
use crate::fake::{FakeDisk, FakeFile};
use cpl_io::{ShelfError, write_whole};
use std::alloc::Global;
use std::test::Fail;

const OLD: &[u8] = b"what was there before";

const NEW: &[u8] = b"flux of heat";

// Whether it is a file with one of these bytes, all of them on the disk.
fn is_whole(file: &Option<FakeFile>) -> bool {
    match file {
        Some(file) => {
            file.is_kept && (file.bytes.as_slice() == OLD || file.bytes.as_slice() == NEW)
        }
        None => false,
    }
}

// Whether the name shows a whole file, and a crash leaves one too.
fn is_safe(disk: &FakeDisk, name: &str) -> bool {
    match disk.places.get(name) {
        Some(place) => is_whole(&place.now) && place.before.iter().all(|file| is_whole(file)),
        None => false,
    }
}

// The bytes that the name shows.
fn shown<'a>(disk: &'a FakeDisk, name: &str) -> Option<&'a [u8]> {
    match disk.places.get(name) {
        Some(place) => match &place.now {
            Some(file) => Some(file.bytes.as_slice()),
            None => None,
        },
        None => None,
    }
}

// A disk with an old file, which is full after so many bytes and fails after so many calls.
fn disk_with_old(alloc: Global, calls: u32, room: usize) -> Result<FakeDisk, Fail> {
    let mut disk = FakeDisk::new(alloc, calls, 5, room);
    disk.store("out", OLD)?;
    Ok(disk)
}

#[test]
fn a_crash_after_each_call_leaves_the_old_file_or_the_new(rt: HostRuntime) -> Result<(), Fail> {
    let alloc = rt.alloc();

    // A look, the rights, a new file, three writings, the waiting, the renaming, and the waiting for the folder.
    for calls in 0..12 {
        let mut disk = disk_with_old(alloc, calls, 100)?;
        let written = write_whole(alloc, &mut disk, "out", NEW);
        assert_eq!(rt; written.is_ok(), calls >= 9, "after {calls} calls");
        assert_eq!(rt; is_safe(&disk, "out"), true, "after {calls} calls");
        let wanted = if calls >= 8 { NEW } else { OLD };
        assert_eq!(rt; shown(&disk, "out"), Some(wanted), "after {calls} calls");
    }
    Ok(())
}

#[test]
fn what_was_written_is_there_after_a_crash(rt: HostRuntime) -> Result<(), Fail> {
    let alloc = rt.alloc();
    let mut disk = disk_with_old(alloc, 100, 100)?;
    assert_eq!(rt; write_whole(alloc, &mut disk, "out", NEW), Ok(true));
    let before = disk.places.get("out").map(|place| place.before.len());
    assert_eq!(rt; before, Some(0));
    Ok(())
}

#[test]
fn a_full_disk_keeps_the_old_file_and_no_partial_one(rt: HostRuntime) -> Result<(), Fail> {
    let alloc = rt.alloc();
    for room in 0..NEW.len() {
        let mut disk = disk_with_old(alloc, 100, room)?;
        let written = write_whole(alloc, &mut disk, "out", NEW);
        assert_eq!(rt; written, Err(ShelfError::Failed));
        assert_eq!(rt; shown(&disk, "out"), Some(OLD));
        assert_eq!(rt; is_safe(&disk, "out"), true);
        assert_eq!(rt; shown(&disk, "coupler-part-0"), None);
    }
    Ok(())
}

#[test]
fn names_of_partial_files_that_are_taken_stay(rt: HostRuntime) -> Result<(), Fail> {
    let alloc = rt.alloc();
    let mut disk = disk_with_old(alloc, 100, 100)?;
    disk.store("coupler-part-0", OLD)?;
    assert_eq!(rt; write_whole(alloc, &mut disk, "out", NEW), Ok(true));
    assert_eq!(rt; shown(&disk, "out"), Some(NEW));
    assert_eq!(rt; shown(&disk, "coupler-part-0"), Some(OLD));

    // Nor is one taken that is the output itself.
    assert_eq!(rt;
        write_whole(alloc, &mut disk, "coupler-part-1", NEW),
        Ok(true)
    );
    assert_eq!(rt; shown(&disk, "coupler-part-1"), Some(NEW));
    Ok(())
}

#[test]
fn what_is_no_file_is_left_to_the_caller(rt: HostRuntime) -> Result<(), Fail> {
    let alloc = rt.alloc();
    let mut disk = disk_with_old(alloc, 1, 100)?;
    assert_eq!(rt; write_whole(alloc, &mut disk, "pipe", NEW), Ok(false));
    Ok(())
}
