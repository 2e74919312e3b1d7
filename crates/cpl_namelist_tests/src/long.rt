// Long texts: an integer of many digits, many groups, many values and many lines.
use crate::texts::read;
use cpl_namelist::{NamesError, Required};
use std::alloc::Global;
use std::process::Abort;
use std::test::Fail;

/// A text with many copies of a part between its head and its tail.
fn repeated(alloc: Global, head: &str, part: &str, times: u32, tail: &str) -> Result<String, Fail> {
    let mut text = String::from_str(alloc, head)?;
    for _ in 0..times {
        text.push_str(part)?;
    }
    text.push_str(tail)?;
    Ok(text)
}

fn fault_is(rt: &impl Abort, text: &str, fault: NamesError) {
    assert!(rt; read(text).err() == Some(fault));
}

#[test]
fn long_texts(rt: HostRuntime) -> Result<(), Fail> {
    let alloc = rt.alloc();
    // 60,000 zeros and a 1 are 1, which is in range
    let text = repeated(alloc, "&air_nml ca=", "0", 60_000, "1/")?;
    fault_is(
        &rt,
        text.as_str(),
        NamesError::Missing(Required::CurrentDate),
    );
    // 60,000 nines are not
    let text = repeated(alloc, "&air_nml ca=", "9", 60_000, "/")?;
    fault_is(&rt, text.as_str(), NamesError::Value(1));
    // the second of many groups is there twice
    let text = repeated(alloc, "", "&air_nml/\n", 6_000, "")?;
    fault_is(&rt, text.as_str(), NamesError::Twice(2));
    // 30,000 values of a name that has one
    let text = repeated(alloc, "&air_nml ca=", "1 ", 30_000, "/")?;
    fault_is(&rt, text.as_str(), NamesError::Value(1));
    // 60,000 line feeds, and on the next line a byte that begins no token
    let text = repeated(alloc, "", "\n", 60_000, "#")?;
    fault_is(&rt, text.as_str(), NamesError::Syntax(60_001));
    Ok(())
}
