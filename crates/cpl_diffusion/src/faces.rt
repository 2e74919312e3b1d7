// The faces of a cell, each between it and the cell across one of its sides.
ghost use Rattle.std.specs.Prelude.{◌≡◌, ◌<◌, ◌≤◌, length, IfOk};
ghost use Rattle.cpl_fixed.specs.Flows.{face_divisor};
ghost use Rattle.cpl_mosaic.specs.Contacts.{cells_of};
ghost use Rattle.cpl_mosaic.specs.Mates.{MatesAgree};
ghost use Rattle.cpl_mosaic.specs.Cells.{NumbersAgree};
ghost use Rattle.cpl_state.specs.Diffusion.{IsAirMesh, cell_count};
ghost use Rattle.cpl_diffusion.specs.Across.{AreFacesAlong, across_of, face_along, faces_to, next_at, previous_by};

use cpl_fixed::FaceDivisor;
use cpl_mosaic::{Mesh, Mosaic, Side};
use std::alloc::{AllocError, Global};

/// The two faces of a cell along one of the two ways of a grid, eastward or northward, to the next cell and to the previous one.
/// At a wall the other cell is the cell itself, with which nothing flows.
#[derive(Clone, Copy)]
pub(crate) struct Faces {
    /// The number of the next cell.
    pub(crate) next: u32,
    /// The number of the previous cell, where it comes before this one and has this one as its next; else that number and the
    /// number of all cells.
    pub(crate) previous: u32,
    /// What divides the flow into the next cell.
    pub(crate) divisor: FaceDivisor,
}

// The cell across a side of the n-th cell.
fn across(mosaic: &Mosaic, n: u32, side: Side) -> u32
    requires mates { MatesAgree mosaic.now }
    requires numbers { NumbersAgree mosaic.now.tiles }
    requires within { n < cells_of mosaic.now.tiles }
    ensures { result ≡ across_of mosaic.now n side }
{
    match mosaic.mate(mosaic.cell(n), side) {
        Some((cell, _)) => mosaic.number(cell),
        None => n,
    }
}

// The previous cell of the n-th cell, across its side back, as its faces have it. `before` are the faces of the cells before it.
fn previous(mosaic: &Mosaic, before: &[Faces], back: Side, n: u32) -> u32
    requires mates { MatesAgree mosaic.now }
    requires numbers { NumbersAgree mosaic.now.tiles }
    requires within { n < cells_of mosaic.now.tiles }
    requires before { n ≤ length before.now }
    ensures { result ≡ previous_by (cells_of mosaic.now.tiles) n (across_of mosaic.now n back) (next_at before.now (across_of mosaic.now n back)) }
{
    let cell = across(mosaic, n, back);
    if cell < n && before[cell as usize].next == n {
        cell
    } else {
        mosaic.cells() + cell
    }
}

// The faces of the n-th cell, at its sides ahead and back.
fn faces_along(mesh: &Mesh, before: &[Faces], ahead: Side, back: Side, n: u32) -> Faces
    requires air { IsAirMesh mesh.now }
    requires mates { MatesAgree mesh.now.mosaic }
    requires numbers { NumbersAgree mesh.now.mosaic.tiles }
    requires within { n < cell_count mesh.now }
    requires before { before.now ≡ faces_to mesh.now ahead back n }
    ensures { result ≡ face_along mesh.now ahead back n }
{
    let area = mesh.area.as_slice();
    let next = across(&mesh.mosaic, n, ahead);
    Faces {
        next,
        previous: previous(&mesh.mosaic, before, back, n),
        divisor: FaceDivisor::new(area[n as usize], area[next as usize]),
    }
}

/// The faces of each cell along the way from the side `back` to the side `ahead`, in whole order.
pub(crate) fn all_faces(
    alloc: Global,
    mesh: &Mesh,
    ahead: Side,
    back: Side,
) -> Result<Vec<Faces>, AllocError>
    requires { IsAirMesh mesh.now }
    ensures { IfOk result (λ faces. AreFacesAlong mesh.now ahead back faces.items) }
{
    let cells = mesh.mosaic.cells();
    let mut faces = Vec::with_capacity(alloc, cells as usize)?;
    for n in 0..cells {
        let here = faces_along(mesh, faces.as_slice(), ahead, back, n);
        faces.push(here)?;
    }
    Ok(faces)
}
