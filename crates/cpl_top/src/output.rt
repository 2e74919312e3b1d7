// What a command is to write and print.
ghost use Rattle.std.specs.Prelude.{◌≡◌, ◌++◌, string_bytes, IfOk};

use crate::Which;
use cpl_fixed::List;
use std::alloc::{AllocError, Global};
use std::marker::Model;

/// A file's name, which contracts see as its bytes.
#[derive(Drop)]
pub struct FileName {
    text: String,
}

impl Model for FileName {
    ghost use Rattle.std.specs.Prelude.{ℕ, List, string_bytes};

    ghost Value = { List ℕ };

    ghost view = { λ a. string_bytes a.text };
}

impl FileName {
    /// The name that a text is.
    pub fn new(text: String) -> FileName
        ensures { result ≡ string_bytes text }
    {
        FileName { text }
    }

    /// The name as a text.
    pub fn as_str(&self) -> &str
        ensures { result.now ≡ self.now }
    {
        self.text.as_str()
    }
}

/// A file that a command writes: what it is to the command, its name and its bytes.
#[derive(Drop)]
pub struct Output {
    pub which: Which,
    pub name: FileName,
    pub bytes: List<u8>,
}

impl Output {
    // The file of these bytes whose name is that of the command's output and an ending.
    pub(crate) fn new(
        alloc: Global,
        which: Which,
        out: &str,
        ending: &str,
        bytes: Vec<u8>,
    ) -> Result<Output, AllocError>
        ensures { IfOk result (λ output.
            output ≡ record { which = which; name = out.now ++ ending.now; bytes = bytes.items }) }
    {
        let name = format!(in alloc; "{out}{ending}")?;
        Ok(Output {
            which,
            name: FileName::new(name),
            bytes: List::from_vec(bytes),
        })
    }
}

/// What a command that isn't refused comes to: the files that it writes, in order, and the line that it prints after them.
#[derive(Drop)]
pub struct Reply {
    pub outputs: List<Output>,
    pub line: List<u8>,
}
