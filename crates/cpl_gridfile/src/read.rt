// Reading a grid.
ghost use Rattle.std.specs.Prelude.{◌≡◌, ◌≢◌, IfOk, IfErr, Ok, Err, All};
ghost use Rattle.cpl_fixed.specs.Flows.{IsAirArea};
ghost use Rattle.cpl_fixed.specs.Results.{Gives, Returns};
ghost use Rattle.cpl_lines.specs.Steps.{is_out_of_memory};
ghost use Rattle.cpl_mosaic.specs.declared.mosaic.Mesh.{Mesh as MeshValue};
ghost use Rattle.cpl_xgrid.specs.Grids.{IsGrid};
ghost use Rattle.cpl_xgrid.specs.declared.grid.Grid.{Grid as GridValue};
ghost use Rattle.cpl_gridfile.specs.declared.fault.GridError.{GridError as GridErrorValue};
ghost use Rattle.cpl_gridfile.specs.declared.fault.GridError.TheVariants.{Memory};
ghost use Rattle.cpl_gridfile.specs.Faults.{is_memory};
ghost use Rattle.cpl_gridfile.specs.Grids.{IsFirstFault, parts_in};
ghost use Rattle.cpl_gridfile.specs.AirGrid.{IsAirGrid, air_grids, air_text};
ghost use Rattle.cpl_gridfile.specs.CoupledGrid.{IsCoupledGrid, coupled_grids, grid_text};
ghost use Rattle.cpl_gridfile.specs.Reading.{air_grid_of, coupled_grid_of};
ghost use Rattle.cpl_gridfile.specs.Readers.{parts_of};

use crate::GridError;
use crate::judge::{air, coupled};
use crate::next_line::GridKind;
use crate::reader::Reader;
use cpl_lines::LinesError;
use cpl_mosaic::Mesh;
use cpl_xgrid::Grid;
use std::alloc::Global;

// Reads all lines, in one pass.
fn lines(alloc: Global, kind: GridKind, bytes: &[u8]) -> Result<Reader, LinesError>
    ensures { Gives is_out_of_memory parts_of result (parts_in kind bytes.now) }
{
    let mut reader = Reader::new(alloc, kind);
    let mut rest = bytes;
    let mut number = 1u32;
    while !reader.is_done() {
        rest = match reader.line(rest) {
            Ok(rest) => rest,
            Err(fault) => return Err(fault.at(number)),
        };
        number += 1;
    }
    if !rest.is_empty() {
        return Err(LinesError::Syntax(number));
    }
    Ok(reader)
}

// Reads all lines of an air grid, and then judges the rules.
fn air_grid(alloc: Global, bytes: &[u8]) -> Result<Mesh, GridError>
    ensures { Returns is_memory result (air_grid_of bytes.now) }
{
    let reader = lines(alloc, GridKind::Air, bytes)?;
    air(alloc, reader.air)
}

/// The air grid that bytes spell, or their first fault. The format is defined by this project: one grid has one spelling.
///
/// Its lines are, in this order: `grid 1 air`; `mosaic atmos T` with T tiles; for each tile `tile NX NY` and NY lines
/// `area a a ..` of NX areas each, row 0 first; `contacts C`; C lines `contact T1 S1 LO1 HI1 T2 S2 LO2 HI2 FLIP`, sides as
/// letters W, E, S, N and FLIP 0 or 1; `end`. Each ends with a line feed, and one blank stands between two fields.
///
/// `Syntax` and `Limit` name the first line at fault, where a line's form comes before its limits. Then the rules are
/// judged: `Area`, and `ContactRange`, `ContactTwice` and `SelfMeet` of the mosaic. Components are always `Atmos`.
pub fn read_air(alloc: Global, bytes: &[u8]) -> Result<Mesh, GridError>
    // What is read is spelled so, and keeps the rules.
    ensures found { IfOk result IsAirGrid }
    ensures spelled { IfOk result (λ mesh. bytes.now ≡ air_text mesh) }
    ensures areas { IfOk result (λ mesh. All IsAirArea mesh.area) }
    // What is spelled so is read, unless memory ran out.
    ensures only { (mesh : MeshValue) → IsAirGrid mesh → bytes.now ≡ air_text mesh
        → Returns is_memory result (Ok mesh) }
    // Which fault it is.
    ensures fault { IfErr result (IsFirstFault air_grids bytes.now) }
    // Each first fault is told, unless memory ran out, so there is one at most.
    ensures told { (fault : GridErrorValue) → fault ≢ Memory → IsFirstFault air_grids bytes.now fault
        → Returns is_memory result (Err fault) }
    ensures exact { Returns is_memory result (air_grid_of bytes.now) }
{
    air_grid(alloc, bytes)
}

// Reads all lines of a coupled grid, and then judges the rules.
fn coupled_grid(alloc: Global, bytes: &[u8]) -> Result<Grid, GridError>
    ensures { Returns is_memory result (coupled_grid_of bytes.now) }
{
    let reader = lines(alloc, GridKind::Coupled, bytes)?;
    coupled(alloc, reader)
}

/// The coupled grid that bytes spell, or their first fault. The format is defined by this project: one grid has one spelling.
///
/// Its lines are, in this order: `grid 1 coupled`; the meshes of the air, the land and the ocean, each as in an air grid with
/// its own word, `mosaic atmos T`, `mosaic land T` and `mosaic ocean T`; `column LAYERS CATEGORIES`; `xgrid land N` with N
/// lines `x TA IA JA TL IL JL AREA`; `xgrid ocean N` with N lines `x TA IA JA TO IO JO AREA`; `outlets N` with N lines
/// `o TL IL JL TO IO JO WEIGHT`; `end`. A count in the text reserves no memory.
///
/// `Syntax` and `Limit` name the first line at fault, where a line's form comes before its limits. Then the rules are judged:
/// `Area`; `ContactRange`, `ContactTwice` and `SelfMeet` of the air's mosaic, then of the land's, then of the ocean's; and those
/// of the exchange grid, from `BadIndex` to `NoOutlet`. So each cell of the air of a grid that is read has an area above 0.
pub fn read_grid(alloc: Global, bytes: &[u8]) -> Result<Grid, GridError>
    // What is read is spelled so, and keeps the rules.
    ensures found { IfOk result IsCoupledGrid }
    ensures spelled { IfOk result (λ grid. bytes.now ≡ grid_text grid) }
    ensures grid { IfOk result IsGrid }
    ensures areas { IfOk result (λ grid. All IsAirArea grid.air.area) }
    // What is spelled so is read, unless memory ran out.
    ensures only { (grid : GridValue) → IsCoupledGrid grid → bytes.now ≡ grid_text grid
        → Returns is_memory result (Ok grid) }
    // Which fault it is.
    ensures fault { IfErr result (IsFirstFault coupled_grids bytes.now) }
    // Each first fault is told, unless memory ran out, so there is one at most.
    ensures told { (fault : GridErrorValue) → fault ≢ Memory → IsFirstFault coupled_grids bytes.now fault
        → Returns is_memory result (Err fault) }
    ensures exact { Returns is_memory result (coupled_grid_of bytes.now) }
{
    coupled_grid(alloc, bytes)
}

/// As `read_grid`, of bytes that are its own: they are freed once their lines are read, before the lists of the exchange grid
/// are made. So it takes less memory at once.
pub fn take_grid(alloc: Global, bytes: Vec<u8>) -> Result<Grid, GridError>
    ensures found { IfOk result IsCoupledGrid }
    ensures grid { IfOk result IsGrid }
    ensures areas { IfOk result (λ grid. All IsAirArea grid.air.area) }
    ensures exact { Returns is_memory result (coupled_grid_of bytes.items) }
{
    let reader = lines(alloc, GridKind::Coupled, &bytes)?;
    drop(bytes);
    coupled(alloc, reader)
}
