// The rows: which calls fail, and what comes of it.
use crate::column::{EXCHANGES, GRID, LAST, LINE, NAMES, SECOND, START, STOCKS};
use cpl_io::{MemShelf, MemSink, Shelf, Sink};
use cpl_top::{FileName, Status, Which, still_top};
use std::alloc::{AllocError, Global};
use std::test::Fail;

// A command: its words, the files that it reads, and those that it writes, each of which is there before with other bytes.
struct Command {
    words: &'static [&'static str],
    inputs: &'static [(&'static str, &'static [u8])],
    outputs: &'static [&'static str],
}

// The calls on the shelf and on the sink that fail, the status, what the outputs then have, and the line.
type Row = (
    &'static [u64],
    &'static [u64],
    Status,
    &'static [&'static [u8]],
    &'static [u8],
);

const KEPT: &[u8] = b"kept";

// Each file takes two readings, of which the second finds its end. Each output is begun, and its bytes are added. It stands as it
// was until it is begun.

// Two cells of area 1 side by side: a mark, a section of the heats 100 and 0, and one of the vapours 0 and 0.
const SOLO: Command = Command {
    words: &["solo", "g", "s", "o", "1"],
    inputs: &[
        (
            "g",
            b"grid 1 air\nmosaic atmos 1\ntile 2 1\narea 1 1\ncontacts 0\nend\n",
        ),
        (
            "s",
            b"CPLAIR01\0\0\0\0\0\0\0\x02\0\0\0\0\0\0\0\x64\0\0\0\0\0\0\0\0\0\0\0\0\0\0\0\x02\0\0\0\0\0\0\0\0\0\0\0\0\0\0\0\0",
        ),
    ],
    outputs: &["o.restart"],
};

// After one step: out of the first cell flows trunc((100 * 1 - 0 * 1) / (8 * 2)) = 6.
const AIR: &[u8] =
    b"CPLAIR01\0\0\0\0\0\0\0\x02\0\0\0\0\0\0\0\x5e\0\0\0\0\0\0\0\x06\0\0\0\0\0\0\0\x02\0\0\0\0\0\0\0\0\0\0\0\0\0\0\0\0";

const SOLO_ROWS: [Row; 8] = [
    (&[0], &[], Status::Read(Which::Grid), &[KEPT], b""),
    (&[1], &[], Status::Read(Which::Grid), &[KEPT], b""),
    (&[2], &[], Status::Read(Which::Start), &[KEPT], b""),
    (&[3], &[], Status::Read(Which::Start), &[KEPT], b""),
    (&[4], &[], Status::Write(Which::Restart), &[KEPT], b""),
    (&[5], &[], Status::Write(Which::Restart), &[b""], b""),
    (&[6], &[0], Status::Print, &[AIR], b""),
    (&[6], &[1], Status::Done, &[AIR], b"done 1 2 0\n"),
];

const WHOLE: Command = Command {
    words: &["whole", "g", "n", "s", "o"],
    inputs: &[("g", GRID), ("n", NAMES), ("s", START)],
    outputs: &["o.stocks", "o.exchanges", "o.restart"],
};

// Nothing was written yet.
const NONE: &[&[u8]] = &[KEPT, KEPT, KEPT];

const WHOLE_ROWS: [Row; 14] = [
    (&[0], &[], Status::Read(Which::Grid), NONE, b""),
    (&[1], &[], Status::Read(Which::Grid), NONE, b""),
    (&[2], &[], Status::Read(Which::Names), NONE, b""),
    (&[3], &[], Status::Read(Which::Names), NONE, b""),
    (&[4], &[], Status::Read(Which::Start), NONE, b""),
    (&[5], &[], Status::Read(Which::Start), NONE, b""),
    (&[6], &[], Status::Write(Which::Stocks), NONE, b""),
    (
        &[7],
        &[],
        Status::Write(Which::Stocks),
        &[b"", KEPT, KEPT],
        b"",
    ),
    (
        &[8],
        &[],
        Status::Write(Which::Exchanges),
        &[STOCKS, KEPT, KEPT],
        b"",
    ),
    (
        &[9],
        &[],
        Status::Write(Which::Exchanges),
        &[STOCKS, b"", KEPT],
        b"",
    ),
    (
        &[10],
        &[],
        Status::Write(Which::Restart),
        &[STOCKS, EXCHANGES, KEPT],
        b"",
    ),
    (
        &[11],
        &[],
        Status::Write(Which::Restart),
        &[STOCKS, EXCHANGES, b""],
        b"",
    ),
    (&[12], &[0], Status::Print, &[STOCKS, EXCHANGES, LAST], b""),
    (&[12], &[1], Status::Done, &[STOCKS, EXCHANGES, LAST], LINE),
];

const CHECK: Command = Command {
    words: &["check", "g"],
    inputs: &[("g", GRID)],
    outputs: &[],
};

const CHECK_ROWS: [Row; 4] = [
    (&[0], &[], Status::Read(Which::Grid), &[], b""),
    (&[1], &[], Status::Read(Which::Grid), &[], b""),
    (&[2], &[0], Status::Print, &[], b""),
    (&[2], &[1], Status::Done, &[], b"grid coupled 1 1 1 2 1\n"),
];

// Two failing calls in one run: where the first ends the run, the second never comes. And an answer `Read(START)` after GRID
// failed and was read again would be another status than this.
const MIGRATE: Command = Command {
    words: &["migrate", "g", "s", "o"],
    inputs: &[("g", GRID), ("s", START)],
    outputs: &["o.restart"],
};

const MIGRATE_ROWS: [Row; 10] = [
    (&[0], &[], Status::Read(Which::Grid), &[KEPT], b""),
    (&[1], &[], Status::Read(Which::Grid), &[KEPT], b""),
    (&[2], &[], Status::Read(Which::Start), &[KEPT], b""),
    (&[3], &[], Status::Read(Which::Start), &[KEPT], b""),
    (&[4], &[], Status::Write(Which::Restart), &[KEPT], b""),
    (&[5], &[], Status::Write(Which::Restart), &[b""], b""),
    (&[6], &[0], Status::Print, &[SECOND], b""),
    (&[6], &[1], Status::Done, &[SECOND], b"migrated 0\n"),
    (&[0, 3], &[], Status::Read(Which::Grid), &[KEPT], b""),
    (&[1, 2], &[0], Status::Read(Which::Grid), &[KEPT], b""),
];

// The three files of a made input aren't looked at here but where nothing was written yet.
const MAKE: Command = Command {
    words: &["make", "7", "1", "o"],
    inputs: &[],
    outputs: &["o.start", "o.nml", "o.grid"],
};

const MAKE_ROWS: [Row; 7] = [
    (&[0], &[], Status::Write(Which::Grid), NONE, b""),
    (
        &[1],
        &[],
        Status::Write(Which::Grid),
        &[KEPT, KEPT, b""],
        b"",
    ),
    (&[2], &[], Status::Write(Which::Names), &[KEPT, KEPT], b""),
    (&[3], &[], Status::Write(Which::Names), &[KEPT, b""], b""),
    (&[4], &[], Status::Write(Which::Start), &[KEPT], b""),
    (&[5], &[], Status::Write(Which::Start), &[b""], b""),
    (&[6], &[0], Status::Print, &[], b""),
];

// Without a file nothing but the line can fail.
const SUMMARY: Command = Command {
    words: &["summary", "7", "1", "1"],
    inputs: &[],
    outputs: &["o.restart"],
};

const SUMMARY_ROWS: [Row; 1] = [(&[0], &[0], Status::Print, &[KEPT], b"")];

fn words_of(alloc: Global, command: &Command) -> Result<Vec<String>, AllocError> {
    let mut words = Vec::new(alloc);
    for word in command.words {
        words.push(String::from_str(alloc, word)?)?;
    }
    Ok(words)
}

// The call over any shelf and sink, so that it is proved once.
fn answer<S: Shelf, K: Sink>(
    alloc: Global,
    command: &Command,
    shelf: &mut S,
    sink: &mut K,
) -> Result<Status, AllocError> {
    let words = words_of(alloc, command)?;
    Ok(still_top(alloc, &words, shelf, sink))
}

// A shelf of which some calls fail, with the command's files.
fn shelf_of(alloc: Global, command: &Command, failing: &[u64]) -> Result<MemShelf, AllocError> {
    let mut shelf = MemShelf::new(alloc, failing.to_vec(alloc)?);
    for (name, bytes) in command.inputs {
        shelf.store(name, bytes)?;
    }
    for name in command.outputs {
        shelf.store(name, KEPT)?;
    }
    Ok(shelf)
}

// Whether the outputs have these bytes.
fn stand(shelf: &MemShelf, outputs: &[&str], files: &[&[u8]]) -> bool {
    outputs
        .iter()
        .zip(files)
        .all(|(name, bytes)| shelf.file(name) == Some(*bytes))
}

// Whether the status is the row's, and then the outputs, and then the line.
fn outcome(
    alloc: Global,
    command: &Command,
    (calls, puts, status, files, line): Row,
) -> Result<(bool, bool, bool), AllocError> {
    let mut shelf = shelf_of(alloc, command, calls)?;
    let mut sink = MemSink::new(alloc, puts.to_vec(alloc)?);
    let answered = answer(alloc, command, &mut shelf, &mut sink)?;
    let stands = stand(&shelf, command.outputs, files);
    Ok((answered == status, stands, sink.bytes() == line))
}

// The first row in which something else comes of it, and what agrees there.
fn first_other(
    alloc: Global,
    command: &Command,
    rows: &[Row],
) -> Result<Option<(usize, (bool, bool, bool))>, AllocError> {
    for (n, row) in rows.iter().enumerate() {
        let found = outcome(alloc, command, *row)?;
        if found != (true, true, true) {
            return Ok(Some((n, found)));
        }
    }
    Ok(None)
}

#[test]
fn each_failing_call_of_solo_is_named(rt: HostRuntime) -> Result<(), Fail> {
    assert_eq!(rt; first_other(rt.alloc(), &SOLO, &SOLO_ROWS)?, None);
    Ok(())
}

#[test]
fn each_failing_call_of_whole_is_named(rt: HostRuntime) -> Result<(), Fail> {
    assert_eq!(rt; first_other(rt.alloc(), &WHOLE, &WHOLE_ROWS)?, None);
    Ok(())
}

#[test]
fn each_failing_call_of_check_is_named(rt: HostRuntime) -> Result<(), Fail> {
    assert_eq!(rt; first_other(rt.alloc(), &CHECK, &CHECK_ROWS)?, None);
    Ok(())
}

#[test]
fn each_failing_call_of_migrate_is_named(rt: HostRuntime) -> Result<(), Fail> {
    assert_eq!(rt; first_other(rt.alloc(), &MIGRATE, &MIGRATE_ROWS)?, None);
    Ok(())
}

#[test]
fn each_failing_call_of_make_and_summary_is_named(rt: HostRuntime) -> Result<(), Fail> {
    assert_eq!(rt; first_other(rt.alloc(), &MAKE, &MAKE_ROWS)?, None);
    assert_eq!(rt; first_other(rt.alloc(), &SUMMARY, &SUMMARY_ROWS)?, None);
    Ok(())
}

#[test]
fn names_and_numbers(rt: HostRuntime) -> Result<(), Fail> {
    let name = FileName::new(String::from_str(rt.alloc(), "o.restart")?);
    assert_eq!(rt; name.as_str(), "o.restart");
    assert_eq!(rt; Status::Write(Which::Restart).number(), 8);
    assert_eq!(rt; Which::Names.limit(), 65_536);
    Ok(())
}
