//! Tests of the words of the command `run`, over lines whose words stand one blank apart.
#![tactic(auto)]

#[cfg(test)]
mod tests {
    use cpl_words::run_words;
    use std::alloc::{AllocError, Global};
    use std::test::Fail;

    // Lines that are commands, and their workers.
    const COMMANDS: [(&str, u32); 6] = [
        ("run g n s o", 2),
        ("run --workers=3 g n s o", 3),
        ("run g n --workers 16 s o", 16),
        ("run g --workers=10 n s o", 10),
        ("run g n s o --workers 1", 1),
        ("run g n s --workers=9 o", 9),
    ];

    // Lines that are none. Two blanks have an empty word between them.
    const OTHERS: [&str; 24] = [
        "",
        "run",
        "run g n s",
        "run g n s o p",
        "still g n s o",
        "g n s o",
        "run g n  o",
        "run g n s - o",
        "run - n s o",
        "run -- g n s o",
        "run g n s -o",
        "run g n s o --help",
        "run g n s o --workers",
        "run g n s o --workers=",
        "run g n s o --workers ",
        "run g n s o --workers 0",
        "run g n s o --workers 17",
        "run g n s o --workers -1",
        "run --workers=02 g n s o",
        "run --work 2 g n s o",
        "run g n s o --workers 2 --workers 3",
        "run --workers=2 g n s o --workers 2",
        "run --workers --workers=2 g n s o",
        "run g n s o --workers 18446744073709551618",
    ];

    // Whether the files are `g`, `n`, `s` and `o`, and how many workers there are, where the line is a command.
    fn told(alloc: Global, line: &str) -> Result<Option<(bool, u32)>, AllocError> {
        let mut words = Vec::new(alloc);
        for word in line.split(' ') {
            words.push(String::from_str(alloc, word)?)?;
        }
        let Some(run) = run_words(alloc, &words)? else {
            return Ok(None);
        };
        let inputs = (run.grid.as_str(), run.names.as_str(), run.start.as_str());
        let named = inputs == ("g", "n", "s") && run.out.as_str() == "o";
        Ok(Some((named, run.workers)))
    }

    #[test]
    fn commands_are_read(rt: HostRuntime) -> Result<(), Fail> {
        for (line, workers) in COMMANDS {
            assert_eq!(rt; told(rt.alloc(), line)?, Some((true, workers)), "of {line}");
        }
        Ok(())
    }

    #[test]
    fn other_words_are_none(rt: HostRuntime) -> Result<(), Fail> {
        let none = Vec::new(rt.alloc());
        assert!(rt; run_words(rt.alloc(), &none)?.is_none());
        for line in OTHERS {
            assert_eq!(rt; told(rt.alloc(), line)?, None, "of {line}");
        }
        Ok(())
    }
}
