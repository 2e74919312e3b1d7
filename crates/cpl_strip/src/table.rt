// A table by pairs of pieces.
ghost use Rattle.std.specs.Prelude.{◌≡◌, ◌*◌, ◌<◌, ◌≤◌, [], ◌∷◌, ◌++◌, length, replicate, IfOk, OnOk, slice_index_or, slice_set};

use std::alloc::{AllocError, Global};
use std::marker::Model;

/// What each piece gives to each piece, in a list for each pair: by the piece that gives, then the piece that takes.
#[derive(Drop)]
pub(crate) struct Table<T> {
    lists: Vec<Vec<T>>,
}

impl<T> Model for Table<T> {
    ghost use Rattle.std.specs.Prelude.{List, map};
    ghost use Rattle.std.specs.Coded.{coded_list};

    ghost Value = { List (List T) };

    ghost coded = { coded_list (coded_list T.code) };

    ghost view = { λ a. map (λ list. list.items) a.lists.items };
}

impl<T: Drop> Table<T> {
    /// A table for so many pieces, with nothing in it.
    pub(crate) fn new(alloc: Global, pieces: u32) -> Result<Table<T>, AllocError>
        requires { pieces ≤ 64 }
        ensures { IfOk result (λ table. table ≡ replicate (pieces * pieces) []) }
    {
        let mut lists = Vec::with_capacity(alloc, (pieces * pieces) as usize)?;
        for _pair in 0..pieces * pieces {
            lists.push(Vec::new(alloc))?;
        }
        Ok(Table { lists })
    }

    /// Adds an item at the end of a list.
    pub(crate) fn add(&mut self, at: usize, item: T) -> Result<(), AllocError>
        requires { at < length self.old }
        ensures { OnOk result (self.new ≡ slice_set self.old at (slice_index_or self.old at [] ++ item ∷ [])) }
    {
        self.lists[at].push(item)?;
        Ok(())
    }

    /// A list.
    pub(crate) fn list(&self, at: usize) -> &[T]
        requires { at < length self.now }
        ensures { result.now ≡ slice_index_or self.now at [] }
    {
        self.lists[at].as_slice()
    }
}
