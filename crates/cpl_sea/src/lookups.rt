// What the steps of an ocean look up of its mosaic, made once.
ghost use Rattle.std.specs.Prelude.{◌≡◌, ◌<◌, IfOk, length};
ghost use Rattle.cpl_faces.specs.Faces.{faces_of};
ghost use Rattle.cpl_state.specs.Diffusion.{cell_count};
ghost use Rattle.cpl_state.specs.Transport.{behind, is_open};
ghost use Rattle.cpl_sea.specs.Links.{link_of, links_of};
ghost use Rattle.cpl_sea.specs.Seas.{IsOcean};

use crate::links::Link;
use cpl_faces::Face;
use cpl_mosaic::{Mesh, Side, opposite};
use std::alloc::{AllocError, Global};

// Whether two cells are both wet.
fn is_open(mesh: &Mesh, n: u32, other: u32) -> bool
    requires ocean { IsOcean mesh.now }
    requires within { n < cell_count mesh.now }
    requires other { other < cell_count mesh.now }
    ensures { result ≡ is_open mesh.now n other }
{
    let area = mesh.area.as_slice();
    area[n as usize] > 0 && area[other as usize] > 0
}

// The cell behind a cell, opposite a side of it; at a wall the cell itself.
fn behind(mesh: &Mesh, n: u32, side: Side) -> u32
    requires ocean { IsOcean mesh.now }
    requires within { n < cell_count mesh.now }
    ensures { result ≡ behind mesh.now n side }
{
    let mosaic = &mesh.mosaic;
    match mosaic.mate(mosaic.cell(n), opposite(side)) {
        Some((cell, _)) => {
            let other = mosaic.number(cell);
            if is_open(mesh, n, other) { other } else { n }
        }
        None => n,
    }
}

// A face with what lies beside it and behind.
fn link(mesh: &Mesh, face: Face) -> Link
    requires ocean { IsOcean mesh.now }
    requires first { face.first < cell_count mesh.now }
    requires second { face.second < cell_count mesh.now }
    ensures { result ≡ link_of mesh.now face }
{
    Link {
        first: face.first,
        second: face.second,
        behind_first: behind(mesh, face.first, face.first_side),
        behind_second: behind(mesh, face.second, face.second_side),
        is_open: is_open(mesh, face.first, face.second),
    }
}

// Those of all faces.
pub(crate) fn links(alloc: Global, mesh: &Mesh, faces: &[Face]) -> Result<Vec<Link>, AllocError>
    requires ocean { IsOcean mesh.now }
    requires faces { faces.now ≡ faces_of mesh.now.mosaic }
    ensures { IfOk result (λ links. links.items ≡ links_of mesh.now) }
{
    let mut links = Vec::with_capacity(alloc, faces.len())?;
    for face in faces {
        links.push(link(mesh, *face))?;
    }
    Ok(links)
}
