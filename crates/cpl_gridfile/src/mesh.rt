// Reading the lines of a mesh.
ghost use Rattle.std.specs.Prelude.{◌≡◌, Some};
ghost use Rattle.cpl_fixed.specs.Results.{Gives};
ghost use Rattle.cpl_lines.specs.Steps.{is_memory, step_of};
ghost use Rattle.cpl_gridfile.specs.declared.next_line.MeshLine.TheVariants as MeshLine;
ghost use Rattle.cpl_gridfile.specs.MeshFormat.{mesh_format, no_mesh};
ghost use Rattle.cpl_gridfile.specs.Readers.{mesh_of};

use crate::contact::contact_line;
use crate::limit;
use crate::next_line::{GridMesh, MeshLine};
use cpl_fixed::MOST_AREA;
use cpl_lines::{LineFault, line_end, number_line, pair_line, push_numbers, word};
use cpl_mosaic::{Contact, Tile};
use std::alloc::Global;

/// A mesh as far as it is read.
#[derive(Drop)]
pub(crate) struct MeshParts {
    pub tiles: Vec<Tile>,
    pub contacts: Vec<Contact>,
    pub area: Vec<i64>,
}

impl MeshParts {
    /// A mesh of which nothing is read yet.
    pub(crate) fn new(alloc: Global) -> MeshParts
        ensures { mesh_of result ≡ no_mesh }
    {
        MeshParts {
            tiles: Vec::new(alloc),
            contacts: Vec::new(alloc),
            area: Vec::new(alloc),
        }
    }

    fn mosaic<'a>(
        &self,
        mesh: GridMesh,
        bytes: &'a [u8],
    ) -> Result<(Option<MeshLine>, &'a [u8]), LineFault>
        ensures { Gives is_memory (λ found. (found.0, mesh_of self.now, found.1.now)) result
            (step_of (mesh_format mesh) (Some MeshLine.Mosaic) (mesh_of self.now) bytes.now) }
    {
        let (count, rest) = number_line(bytes, mesh.word()).ok_or(LineFault::Form)?;
        let count = limit::tile_count(count).ok_or(LineFault::Limit)?;
        Ok((Some(MeshLine::tiles(count, 0)), rest))
    }

    fn tile<'a>(
        &mut self,
        mesh: GridMesh,
        more: u32,
        cells: u32,
        bytes: &'a [u8],
    ) -> Result<(Option<MeshLine>, &'a [u8]), LineFault>
        ensures { Gives is_memory (λ found. (found.0, mesh_of self.new, found.1.now)) result
            (step_of (mesh_format mesh) (Some (MeshLine.Tile more cells)) (mesh_of self.old) bytes.now) }
    {
        let ((nx, ny), rest) = pair_line(bytes, b"tile").ok_or(LineFault::Form)?;
        let (tile, cells) = limit::tile(nx, ny, cells).ok_or(LineFault::Limit)?;
        self.tiles.push(tile)?;
        Ok((Some(MeshLine::rows(tile.nx, tile.ny, more, cells)), rest))
    }

    #[tactic(auto, unfolding(cpl_lines::specs::Reading::row_at))]
    fn row<'a>(
        &mut self,
        mesh: GridMesh,
        nx: u32,
        rows: u32,
        more: u32,
        cells: u32,
        bytes: &'a [u8],
    ) -> Result<(Option<MeshLine>, &'a [u8]), LineFault>
        ensures { Gives is_memory (λ found. (found.0, mesh_of self.new, found.1.now)) result
            (step_of (mesh_format mesh) (Some (MeshLine.Area nx rows more cells)) (mesh_of self.old) bytes.now) }
    {
        let fields = word(bytes, b"area").ok_or(LineFault::Form)?;
        let (keeps, rest) = push_numbers(fields, nx, MOST_AREA, &mut self.area)?;
        let rest = line_end(rest).ok_or(LineFault::Form)?;
        if !keeps {
            return Err(LineFault::Limit);
        }
        Ok((Some(MeshLine::rows(nx, rows, more, cells)), rest))
    }

    fn contacts<'a>(
        &self,
        mesh: GridMesh,
        bytes: &'a [u8],
    ) -> Result<(Option<MeshLine>, &'a [u8]), LineFault>
        ensures { Gives is_memory (λ found. (found.0, mesh_of self.now, found.1.now)) result
            (step_of (mesh_format mesh) (Some MeshLine.Contacts) (mesh_of self.now) bytes.now) }
    {
        let (count, rest) = number_line(bytes, b"contacts").ok_or(LineFault::Form)?;
        let count = limit::contact_count(count).ok_or(LineFault::Limit)?;
        Ok((MeshLine::contacts(count), rest))
    }

    fn contact<'a>(
        &mut self,
        mesh: GridMesh,
        more: u32,
        bytes: &'a [u8],
    ) -> Result<(Option<MeshLine>, &'a [u8]), LineFault>
        ensures { Gives is_memory (λ found. (found.0, mesh_of self.new, found.1.now)) result
            (step_of (mesh_format mesh) (Some (MeshLine.Contact more)) (mesh_of self.old) bytes.now) }
    {
        let (numbers, rest) = contact_line(bytes).ok_or(LineFault::Form)?;
        let contact = limit::contact(numbers).ok_or(LineFault::Limit)?;
        self.contacts.push(contact)?;
        Ok((MeshLine::contacts(more), rest))
    }

    /// Reads the line that comes next, and answers which line of the mesh comes after it, if any, and the rest of the bytes.
    pub(crate) fn line<'a>(
        &mut self,
        mesh: GridMesh,
        line: MeshLine,
        bytes: &'a [u8],
    ) -> Result<(Option<MeshLine>, &'a [u8]), LineFault>
        ensures { Gives is_memory (λ found. (found.0, mesh_of self.new, found.1.now)) result
            (step_of (mesh_format mesh) (Some line) (mesh_of self.old) bytes.now) }
    {
        match line {
            MeshLine::Mosaic => self.mosaic(mesh, bytes),
            MeshLine::Tile { more, cells } => self.tile(mesh, more, cells, bytes),
            MeshLine::Area {
                nx,
                rows,
                more,
                cells,
            } => self.row(mesh, nx, rows, more, cells, bytes),
            MeshLine::Contacts => self.contacts(mesh, bytes),
            MeshLine::Contact { more } => self.contact(mesh, more, bytes),
        }
    }
}
