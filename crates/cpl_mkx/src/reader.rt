// Reading boxes line by line.
ghost use Rattle.std.specs.Prelude.{◌≡◌, ◌+◌, ◌<◌, ◌^◌, [], false, IsTrue, ◌↔◌};
ghost use Rattle.cpl_fixed.specs.Results.{Gives};
ghost use Rattle.cpl_lines.specs.Steps.{is_memory, step_of};
ghost use Rattle.cpl_mkx.specs.declared.next_line.NextLine.TheVariants as NextLine;
ghost use Rattle.cpl_mkx.specs.BoxFormat.{box_format, no_boxes};
ghost use Rattle.cpl_mkx.specs.Readers.{stepped, pair_of, IsSmall};

use crate::digits::push_digits;
use crate::edges::edges_line;
use crate::limit;
use crate::next_line::{NextLine, Parent};
use crate::size::size_line;
use cpl_lines::{LineFault, line_end, pair_line, word, word_line};
use cpl_xgrid::Column;
use std::alloc::Global;

/// A grid of boxes as far as it is read.
#[derive(Drop)]
pub(crate) struct MeshParts {
    pub x: Vec<i64>,
    pub y: Vec<i64>,
    pub cyclic: bool,
    pub fold: bool,
}

/// Two grids of boxes as far as they are read.
#[derive(Drop)]
pub(crate) struct Reader {
    /// Which line comes next.
    pub next: NextLine,
    pub air: MeshParts,
    pub ocean: MeshParts,
    pub wet: Vec<bool>,
    pub column: Column,
}

impl MeshParts {
    fn new(alloc: Global) -> MeshParts
        ensures x { result.x.items ≡ [] }
        ensures y { result.y.items ≡ [] }
        ensures cyclic { result.cyclic ≡ false }
        ensures fold { result.fold ≡ false }
    {
        MeshParts {
            x: Vec::new(alloc),
            y: Vec::new(alloc),
            cyclic: false,
            fold: false,
        }
    }
}

impl Reader {
    /// A reader of boxes of which nothing is read yet.
    pub(crate) fn new(alloc: Global) -> Reader
        ensures next { result.next ≡ NextLine.Head }
        ensures boxes { pair_of result ≡ no_boxes }
    {
        Reader {
            next: NextLine::Head,
            air: MeshParts::new(alloc),
            ocean: MeshParts::new(alloc),
            wet: Vec::new(alloc),
            column: Column {
                layers: 0,
                categories: 0,
            },
        }
    }

    fn head<'a>(&mut self, bytes: &'a [u8]) -> Result<&'a [u8], LineFault>
        ensures { Gives is_memory (λ rest. stepped self.new rest.now) result
            (step_of box_format NextLine.Head (pair_of self.old) bytes.now) }
    {
        let rest = word_line(bytes, b"boxes 1").ok_or(LineFault::Form)?;
        self.next = NextLine::Size { of: Parent::Air };
        Ok(rest)
    }

    fn size<'a>(&mut self, of: Parent, bytes: &'a [u8]) -> Result<&'a [u8], LineFault>
        ensures { Gives is_memory (λ rest. stepped self.new rest.now) result
            (step_of box_format (NextLine.Size of) (pair_of self.old) bytes.now) }
    {
        let (size, rest) = size_line(bytes, of.word()).ok_or(LineFault::Form)?;
        let (nx, ny) = limit::size(size.nx, size.ny).ok_or(LineFault::Limit)?;
        let (cyclic, fold) = (size.cyclic == b'1', size.fold == b'1');
        match of {
            Parent::Air => {
                self.air.cyclic = cyclic;
                self.air.fold = fold;
            }
            Parent::Ocean => {
                self.ocean.cyclic = cyclic;
                self.ocean.fold = fold;
            }
        }
        self.next = NextLine::Columns { of, nx, ny };
        Ok(rest)
    }

    fn columns<'a>(
        &mut self,
        alloc: Global,
        of: Parent,
        nx: u32,
        ny: u32,
        bytes: &'a [u8],
    ) -> Result<&'a [u8], LineFault>
        requires { nx + 1 < 2 ^ 32 }
        ensures { Gives is_memory (λ rest. stepped self.new rest.now) result
            (step_of box_format (NextLine.Columns of nx ny) (pair_of self.old) bytes.now) }
    {
        let (edges, rest) = edges_line(alloc, bytes, b"x", nx)?;
        match of {
            Parent::Air => self.air.x = edges,
            Parent::Ocean => self.ocean.x = edges,
        }
        self.next = NextLine::Rows { of, nx, ny };
        Ok(rest)
    }

    fn rows<'a>(
        &mut self,
        alloc: Global,
        of: Parent,
        nx: u32,
        ny: u32,
        bytes: &'a [u8],
    ) -> Result<&'a [u8], LineFault>
        requires { ny + 1 < 2 ^ 32 }
        ensures { Gives is_memory (λ rest. stepped self.new rest.now) result
            (step_of box_format (NextLine.Rows of nx ny) (pair_of self.old) bytes.now) }
    {
        let (edges, rest) = edges_line(alloc, bytes, b"y", ny)?;
        match of {
            Parent::Air => self.air.y = edges,
            Parent::Ocean => self.ocean.y = edges,
        }
        self.next = NextLine::after_rows(of, nx, ny);
        Ok(rest)
    }

    #[tactic(auto, unfolding(cpl_lines::specs::Reading::row_at))]
    fn wet<'a>(&mut self, nx: u32, more: u32, bytes: &'a [u8]) -> Result<&'a [u8], LineFault>
        ensures { Gives is_memory (λ rest. stepped self.new rest.now) result
            (step_of box_format (NextLine.Wet nx more) (pair_of self.old) bytes.now) }
    {
        let fields = word(bytes, b"wet").ok_or(LineFault::Form)?;
        let rest = push_digits(fields, nx, &mut self.wet)?;
        let rest = line_end(rest).ok_or(LineFault::Form)?;
        self.next = NextLine::wet(nx, more);
        Ok(rest)
    }

    fn column<'a>(&mut self, bytes: &'a [u8]) -> Result<&'a [u8], LineFault>
        ensures { Gives is_memory (λ rest. stepped self.new rest.now) result
            (step_of box_format NextLine.Column (pair_of self.old) bytes.now) }
    {
        let ((layers, categories), rest) = pair_line(bytes, b"column").ok_or(LineFault::Form)?;
        self.column = limit::column(layers, categories).ok_or(LineFault::Limit)?;
        self.next = NextLine::End;
        Ok(rest)
    }

    fn end<'a>(&mut self, bytes: &'a [u8]) -> Result<&'a [u8], LineFault>
        ensures { Gives is_memory (λ rest. stepped self.new rest.now) result
            (step_of box_format NextLine.End (pair_of self.old) bytes.now) }
    {
        let rest = word_line(bytes, b"end").ok_or(LineFault::Form)?;
        self.next = NextLine::Nothing;
        Ok(rest)
    }

    /// Reads the line that comes next, and answers the rest after it.
    pub(crate) fn line<'a>(&mut self, alloc: Global, bytes: &'a [u8]) -> Result<&'a [u8], LineFault>
        requires { IsSmall self.old.next }
        ensures { Gives is_memory (λ rest. stepped self.new rest.now) result
            (step_of box_format self.old.next (pair_of self.old) bytes.now) }
    {
        match self.next {
            NextLine::Head => self.head(bytes),
            NextLine::Size { of } => self.size(of, bytes),
            NextLine::Columns { of, nx, ny } => self.columns(alloc, of, nx, ny, bytes),
            NextLine::Rows { of, nx, ny } => self.rows(alloc, of, nx, ny, bytes),
            NextLine::Wet { nx, more } => self.wet(nx, more, bytes),
            NextLine::Column => self.column(bytes),
            NextLine::End => self.end(bytes),
            NextLine::Nothing => Err(LineFault::Form),
        }
    }

    /// Whether all lines are read.
    pub(crate) fn is_done(&self) -> bool
        ensures { IsTrue result ↔ (self.now.next ≡ NextLine.Nothing) }
    {
        matches!(self.next, NextLine::Nothing)
    }
}
