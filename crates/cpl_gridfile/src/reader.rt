// Reading a grid line by line.
ghost use Rattle.std.specs.Prelude.{◌≡◌, true, IsTrue, ◌↔◌};
ghost use Rattle.cpl_fixed.specs.Results.{Gives};
ghost use Rattle.cpl_lines.specs.Steps.{is_memory, step_of};
ghost use Rattle.cpl_gridfile.specs.declared.next_line.NextLine.TheVariants as NextLine;
ghost use Rattle.cpl_gridfile.specs.GridFormat.{grid_format, no_parts};
ghost use Rattle.cpl_gridfile.specs.Readers.{mesh_step, stepped, parts_of};

use crate::item::item_line;
use crate::limit;
use crate::mesh::MeshParts;
use crate::next_line::{GridKind, GridList, GridMesh, MeshLine, NextLine};
use cpl_lines::{LineFault, number_line, pair_line, word_line};
use cpl_xgrid::{Column, Outlet, XRow};
use std::alloc::Global;

/// A grid as far as it is read.
#[derive(Drop)]
pub(crate) struct Reader {
    pub kind: GridKind,
    /// Which line comes next.
    pub next: NextLine,
    pub air: MeshParts,
    pub land: MeshParts,
    pub ocean: MeshParts,
    pub column: Column,
    pub land_rows: Vec<XRow>,
    pub ocean_rows: Vec<XRow>,
    pub outlets: Vec<Outlet>,
}

impl Reader {
    /// A reader of a grid of this kind, of which nothing is read yet.
    pub(crate) fn new(alloc: Global, kind: GridKind) -> Reader
        ensures kind { result.kind ≡ kind }
        ensures next { result.next ≡ NextLine.Head }
        ensures parts { parts_of result ≡ no_parts }
    {
        Reader {
            kind,
            next: NextLine::Head,
            air: MeshParts::new(alloc),
            land: MeshParts::new(alloc),
            ocean: MeshParts::new(alloc),
            column: Column {
                layers: 0,
                categories: 0,
            },
            land_rows: Vec::new(alloc),
            ocean_rows: Vec::new(alloc),
            outlets: Vec::new(alloc),
        }
    }

    fn head<'a>(&mut self, bytes: &'a [u8]) -> Result<&'a [u8], LineFault>
        ensures kind { self.new.kind ≡ self.old.kind }
        ensures step { Gives is_memory (λ rest. stepped self.new rest.now) result
            (step_of (grid_format self.old.kind) NextLine.Head (parts_of self.old) bytes.now) }
    {
        let rest = word_line(bytes, self.kind.word()).ok_or(LineFault::Form)?;
        self.next = NextLine::Mesh {
            mesh: GridMesh::Atmos,
            line: MeshLine::Mosaic,
        };
        Ok(rest)
    }

    // Reads a line of a mesh, and answers which line of the mesh comes after it, and the rest.
    fn mesh_line<'a>(
        &mut self,
        mesh: GridMesh,
        line: MeshLine,
        bytes: &'a [u8],
    ) -> Result<(Option<MeshLine>, &'a [u8]), LineFault>
        ensures kind { self.new.kind ≡ self.old.kind }
        ensures step { Gives is_memory (λ found. (found.0, parts_of self.new, found.1.now)) result
            (mesh_step mesh line (parts_of self.old) bytes.now) }
    {
        match mesh {
            GridMesh::Atmos => self.air.line(mesh, line, bytes),
            GridMesh::Land => self.land.line(mesh, line, bytes),
            GridMesh::Ocean => self.ocean.line(mesh, line, bytes),
        }
    }

    fn mesh<'a>(
        &mut self,
        mesh: GridMesh,
        line: MeshLine,
        bytes: &'a [u8],
    ) -> Result<&'a [u8], LineFault>
        ensures kind { self.new.kind ≡ self.old.kind }
        ensures step { Gives is_memory (λ rest. stepped self.new rest.now) result
            (step_of (grid_format self.old.kind) (NextLine.Mesh mesh line) (parts_of self.old) bytes.now) }
    {
        let (line, rest) = self.mesh_line(mesh, line, bytes)?;
        self.next = NextLine::of_mesh(self.kind, mesh, line);
        Ok(rest)
    }

    fn column<'a>(&mut self, bytes: &'a [u8]) -> Result<&'a [u8], LineFault>
        ensures kind { self.new.kind ≡ self.old.kind }
        ensures step { Gives is_memory (λ rest. stepped self.new rest.now) result
            (step_of (grid_format self.old.kind) NextLine.Column (parts_of self.old) bytes.now) }
    {
        let ((layers, categories), rest) = pair_line(bytes, b"column").ok_or(LineFault::Form)?;
        self.column = limit::column(layers, categories).ok_or(LineFault::Limit)?;
        self.next = NextLine::Count {
            list: GridList::Land,
            before: 0,
        };
        Ok(rest)
    }

    fn count<'a>(
        &mut self,
        list: GridList,
        before: u32,
        bytes: &'a [u8],
    ) -> Result<&'a [u8], LineFault>
        ensures kind { self.new.kind ≡ self.old.kind }
        ensures step { Gives is_memory (λ rest. stepped self.new rest.now) result
            (step_of (grid_format self.old.kind) (NextLine.Count list before) (parts_of self.old) bytes.now) }
    {
        let (count, rest) = number_line(bytes, list.word()).ok_or(LineFault::Form)?;
        let (count, total) = limit::item_count(list, before, count).ok_or(LineFault::Limit)?;
        self.next = NextLine::items(list, total, count);
        Ok(rest)
    }

    fn item<'a>(
        &mut self,
        list: GridList,
        total: u32,
        more: u32,
        bytes: &'a [u8],
    ) -> Result<&'a [u8], LineFault>
        ensures kind { self.new.kind ≡ self.old.kind }
        ensures step { Gives is_memory (λ rest. stepped self.new rest.now) result
            (step_of (grid_format self.old.kind) (NextLine.Item list total more) (parts_of self.old) bytes.now) }
    {
        let (numbers, rest) = item_line(bytes, list.item_word()).ok_or(LineFault::Form)?;
        let item = limit::item(list, numbers).ok_or(LineFault::Limit)?;
        match list {
            GridList::Land => self.land_rows.push(XRow {
                air: item.from,
                other: item.to,
                area: item.amount,
            })?,
            GridList::Ocean => self.ocean_rows.push(XRow {
                air: item.from,
                other: item.to,
                area: item.amount,
            })?,
            GridList::Outlets => self.outlets.push(Outlet {
                land: item.from,
                ocean: item.to,
                weight: item.amount,
            })?,
        }
        self.next = NextLine::items(list, total, more);
        Ok(rest)
    }

    fn end<'a>(&mut self, bytes: &'a [u8]) -> Result<&'a [u8], LineFault>
        ensures kind { self.new.kind ≡ self.old.kind }
        ensures step { Gives is_memory (λ rest. stepped self.new rest.now) result
            (step_of (grid_format self.old.kind) NextLine.End (parts_of self.old) bytes.now) }
    {
        let rest = word_line(bytes, b"end").ok_or(LineFault::Form)?;
        self.next = NextLine::Nothing;
        Ok(rest)
    }

    /// Reads the line that comes next, and answers the rest after it.
    pub(crate) fn line<'a>(&mut self, bytes: &'a [u8]) -> Result<&'a [u8], LineFault>
        ensures kind { self.new.kind ≡ self.old.kind }
        ensures step { Gives is_memory (λ rest. stepped self.new rest.now) result
            (step_of (grid_format self.old.kind) self.old.next (parts_of self.old) bytes.now) }
    {
        match self.next {
            NextLine::Head => self.head(bytes),
            NextLine::Mesh { mesh, line } => self.mesh(mesh, line, bytes),
            NextLine::Column => self.column(bytes),
            NextLine::Count { list, before } => self.count(list, before, bytes),
            NextLine::Item { list, total, more } => self.item(list, total, more, bytes),
            NextLine::End => self.end(bytes),
            NextLine::Nothing => Err(LineFault::Form),
        }
    }

    /// Whether all lines are read.
    pub(crate) fn is_done(&self) -> bool
        ensures { IsTrue result ↔ (self.now.next ≡ NextLine.Nothing) }
    {
        matches!(self.next, NextLine::Nothing)
    }
}
