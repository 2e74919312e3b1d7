// Which line comes next.
ghost use Rattle.std.specs.Prelude.{◌≡◌};
ghost use Rattle.cpl_mkx.specs.BoxFormat.{parent_word, next_wet, after_rows};

/// The two grids of boxes, in the order of their text: the parents of the exchange grid.
#[derive(Clone, Copy, Debug, PartialEq, Eq)]
pub(crate) enum Parent {
    Air,
    Ocean,
}

impl Parent {
    /// The word of the line with which the grid begins.
    pub(crate) fn word(self) -> &'static [u8]
        ensures { result.now ≡ parent_word self }
    {
        match self {
            Parent::Air => b"air",
            Parent::Ocean => b"ocean",
        }
    }
}

/// Which line of a text of boxes comes next.
#[derive(Clone, Copy, Debug, PartialEq, Eq)]
pub(crate) enum NextLine {
    Head,
    /// The size of a grid, and which of its edges meet.
    Size { of: Parent },
    /// The edges between columns.
    Columns { of: Parent, nx: u32, ny: u32 },
    /// The edges between rows.
    Rows { of: Parent, nx: u32, ny: u32 },
    /// A row of `nx` digits, with this many rows after it.
    Wet { nx: u32, more: u32 },
    Column,
    End,
    Nothing,
}

impl NextLine {
    /// Where this many rows of digits are still to come.
    pub(crate) fn wet(nx: u32, count: u32) -> NextLine
        ensures { result ≡ next_wet nx count }
    {
        match count.checked_sub(1) {
            Some(more) => NextLine::Wet { nx, more },
            None => NextLine::Column,
        }
    }

    /// After the edges of a grid.
    pub(crate) fn after_rows(of: Parent, nx: u32, ny: u32) -> NextLine
        ensures { result ≡ after_rows of nx ny }
    {
        match of {
            Parent::Air => NextLine::Size { of: Parent::Ocean },
            Parent::Ocean => NextLine::wet(nx, ny),
        }
    }
}
