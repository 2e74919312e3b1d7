//! Tests of the outside: what no clause says, and that each call succeeds where memory is ample.
#![tactic(auto)]

#[cfg(test)]
mod fake;
#[cfg(test)]
mod whole;

#[cfg(test)]
mod tests {
    use cpl_io::{
        FileShelf, MemShelf, MemSink, OutSink, ReadError, Shelf, ShelfError, Sink, SinkError,
        SureShelf, SureSink, read_whole,
    };
    use std::alloc::{AllocError, Global};
    use std::fs;
    use std::test::Fail;

    // Files of the folder that the tests run in.
    const NAME: &str = "cpl_io_tests.tmp";

    const BEGUN: &str = "cpl_io_tests.begun.tmp";

    const LONG: &str = "cpl_io_tests.long.tmp";

    fn written<S: Shelf>(shelf: &mut S, name: &str) -> Result<(), ShelfError> {
        shelf.begin(name)?;
        shelf.append(name, b"flux of ")?;
        shelf.append(name, b"heat")
    }

    #[test]
    fn real_files_are_written_and_read(rt: HostRuntime) -> Result<(), Fail> {
        let alloc = rt.alloc();
        let mut shelf = FileShelf::new(&rt, alloc);
        written(&mut shelf, NAME)?;
        written(&mut shelf, NAME)?;
        let bytes = read_whole(alloc, &mut shelf, NAME, 12)?;
        assert_eq!(rt; bytes.as_slice(), b"flux of heat".as_slice());

        // What was there stands until the first bytes come, if only none.
        shelf.begin(NAME)?;
        assert_eq!(rt; fs::metadata(&rt, NAME)?.len(), 12);
        shelf.append(NAME, b"")?;
        assert_eq!(rt; fs::metadata(&rt, NAME)?.len(), 0);
        fs::remove_file(&rt, NAME)?;
        Ok(())
    }

    #[test]
    fn real_failures_are_answered(rt: HostRuntime) -> Result<(), Fail> {
        let alloc = rt.alloc();
        let mut shelf = FileShelf::new(&rt, alloc);
        for name in ["no such file", ".", "", "no such folder/a", "a\0b"] {
            let read = read_whole(alloc, &mut shelf, name, 100);
            assert_eq!(rt; read.err(), Some(ReadError::Read));
        }
        for name in [".", "", "no such folder/a", "a\0b", "/dev/full"] {
            assert_eq!(rt; shelf.append(name, b"heat"), Err(ShelfError::Failed));
            assert_eq!(rt; written(&mut shelf, name), Err(ShelfError::Failed));
        }
        Ok(())
    }

    #[test]
    fn the_output_takes_a_line(rt: HostRuntime) -> Result<(), Fail> {
        let mut sink = OutSink::new(&rt);
        assert_eq!(rt; sink.put(b"done 1 2 0\n"), Ok(()));
        Ok(())
    }

    // Which of five calls don't succeed.
    fn failing_calls<S: Shelf>(shelf: &mut S) -> [bool; 5] {
        [
            shelf.read_at("a", 0, &mut [0u8; 4]).is_err(),
            shelf.begin("a").is_err(),
            shelf.append("a", b"salt").is_err(),
            shelf.read_at("no such file", 0, &mut [0u8; 4]).is_err(),
            shelf.append("b", b"heat").is_err(),
        ]
    }

    #[test]
    fn chosen_calls_fail(rt: HostRuntime) -> Result<(), Fail> {
        let table: [(&[u64], [bool; 5]); 6] = [
            (&[], [false; 5]),
            (&[0], [true, false, false, false, false]),
            (&[1], [false, true, false, false, false]),
            (&[4, 2, 2], [false, false, true, false, true]),
            (&[3], [false, false, false, true, false]),
            (&[5, u64::MAX], [false; 5]),
        ];
        for (fail, wanted) in table {
            let mut shelf = MemShelf::new(rt.alloc(), fail.to_vec(rt.alloc())?);
            shelf.store("a", b"water")?;
            assert_eq!(rt; failing_calls(&mut shelf), wanted, "at {fail:?}");
            assert_eq!(rt; shelf.file("a").is_some(), true);
        }
        Ok(())
    }

    #[test]
    fn no_call_on_a_sure_shelf_fails(rt: HostRuntime) -> Result<(), Fail> {
        let mut shelf = SureShelf::new(rt.alloc());
        shelf.store("a", b"water")?;
        assert_eq!(rt; failing_calls(&mut shelf), [false; 5]);
        assert_eq!(rt; shelf.file("b"), Some(b"heat".as_slice()));
        Ok(())
    }

    // Which of three calls don't succeed.
    fn failing_puts<K: Sink>(sink: &mut K) -> [bool; 3] {
        [
            sink.put(b"done").is_err(),
            sink.put(b" 1").is_err(),
            sink.put(b" 2").is_err(),
        ]
    }

    #[test]
    fn chosen_puts_fail(rt: HostRuntime) -> Result<(), Fail> {
        let alloc = rt.alloc();
        let mut sink = MemSink::new(alloc, vec![in alloc; 1, 3]?);
        assert_eq!(rt; failing_puts(&mut sink), [false, true, false]);
        assert_eq!(rt; sink.bytes(), b"done 2".as_slice());
        assert_eq!(rt; sink.put(b" 3"), Err(SinkError::Failed));
        let mut sink = SureSink::new(alloc);
        assert_eq!(rt; failing_puts(&mut sink), [false; 3]);
        assert_eq!(rt; sink.bytes(), b"done 1 2".as_slice());
        Ok(())
    }

    fn filled(alloc: Global, length: usize) -> Result<Vec<u8>, AllocError> {
        vec![in alloc; 7u8; length]
    }

    // A byte for a number: for each 256 numbers on it is another.
    fn byte_of(n: u32) -> u8 {
        let bytes = n.to_be_bytes();
        bytes[3].wrapping_add(bytes[2]).wrapping_add(bytes[1])
    }

    // Bytes of which none is like the one 256 places before it, so that no piece of them is like the next.
    fn differing(alloc: Global, length: u32) -> Result<Vec<u8>, AllocError> {
        (0..length).map(|n| byte_of(n)).collect(alloc)
    }

    #[test]
    fn a_long_real_file_is_read_as_it_was_written(rt: HostRuntime) -> Result<(), Fail> {
        let alloc = rt.alloc();
        let file = differing(alloc, 200_000)?;
        let mut shelf = FileShelf::new(&rt, alloc);
        shelf.begin(LONG)?;
        for piece in file.chunks(70_000) {
            shelf.append(LONG, piece)?;
        }
        let bytes = read_whole(alloc, &mut shelf, LONG, 200_000)?;
        assert_eq!(rt; bytes == file, true);
        let short = read_whole(alloc, &mut shelf, LONG, 199_999);
        assert_eq!(rt; short.err(), Some(ReadError::TooLong));
        fs::remove_file(&rt, LONG)?;
        Ok(())
    }

    #[test]
    fn files_are_read_to_their_limit(rt: HostRuntime) -> Result<(), Fail> {
        let alloc = rt.alloc();
        for length in [1usize, 65_535, 65_536, 65_537, 200_000] {
            let file = filled(alloc, length)?;
            let mut shelf = SureShelf::new(alloc);
            shelf.store("a", &file)?;
            let bytes = read_whole(alloc, &mut shelf, "a", length as u64)?;
            assert_eq!(rt; bytes.as_slice(), file.as_slice(), "at {length}");
            let short = read_whole(alloc, &mut shelf, "a", length as u64 - 1);
            assert_eq!(rt; short.err(), Some(ReadError::TooLong), "at {length}");
        }
        Ok(())
    }

    #[test]
    fn a_failed_reading_is_answered(rt: HostRuntime) -> Result<(), Fail> {
        let alloc = rt.alloc();
        let file = filled(alloc, 100_000)?;

        // Two readings bring the bytes, and a third finds no more.
        for failing in 0..4 {
            let mut shelf = MemShelf::new(alloc, vec![in alloc; failing]?);
            shelf.store("a", &file)?;
            let read = read_whole(alloc, &mut shelf, "a", 100_000);
            let wanted = (failing < 3).then_some(ReadError::Read);
            assert_eq!(rt; read.err(), wanted, "at {failing}");
        }
        Ok(())
    }
}
