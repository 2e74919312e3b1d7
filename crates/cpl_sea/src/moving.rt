// What moves through the faces of a layer, and what it leaves in the cells.
ghost use Rattle.std.specs.Prelude.{◌≡◌, ◌≢◌, ◌+◌, ◌*◌, ◌<◌, ◌≤◌, ◌-◌, ℕ, length, All};
ghost use Rattle.cpl_fixed.specs.Amounts.{at};
ghost use Rattle.cpl_ice.specs.declared.parts.Salty.{Salty};
ghost use Rattle.cpl_transport.specs.Cells.{AreFew};
ghost use Rattle.cpl_transport.specs.Heights.{IsFaceNumber, IsHeight};
ghost use Rattle.cpl_transport.specs.Salts.{AreSmall, without};
ghost use Rattle.cpl_sea.specs.Before.{HasMoved, IsLawful, Stands, cell_at};
ghost use Rattle.cpl_sea.specs.Links.{seen_flow};
ghost use Rattle.cpl_sea.specs.Passes.{AreSidesWithin, IsLinkWithin, IsSideWithin, cell_faces_at, flow_in, number_after, out_of, salty_at};

use crate::before::Before;
use crate::links::{CellFaces, Link, SideFace};
use cpl_ice::{NOTHING, Salty};
use cpl_transport::{next_face, sum_of_sides, through, turned, without};

// The number of a face after the step.
#[inline]
fn driven(slope: u32, heights: &[i64], link: Link, u: i64) -> i64
    requires slope { slope ≤ 40 }
    requires heights { All IsHeight heights.now }
    requires link { IsLinkWithin (length heights.now) link }
    requires number { IsFaceNumber u }
    ensures value { result ≡ number_after slope heights.now link u }
    ensures range { IsFaceNumber result }
{
    if link.is_open {
        next_face(
            slope,
            u,
            heights[link.first as usize],
            heights[link.second as usize],
        )
    } else {
        0
    }
}

// What moves through a face of the layer whose cells begin at this place.
#[inline]
fn flow(before: &Before, begin: usize, link: Link, u: i64) -> Salty
    requires before { IsLawful before.now }
    requires within { IsLinkWithin (length before.now.water.now - begin) link }
    requires number { IsFaceNumber u }
    ensures value { result ≡ flow_in (cell_at before.now) begin link u }
    ensures small { AreSmall result }
{
    if link.is_open {
        through(
            u,
            before.cell(begin + link.behind_first as usize),
            before.cell(begin + link.first as usize),
            before.cell(begin + link.second as usize),
            before.cell(begin + link.behind_second as usize),
        )
    } else {
        NOTHING
    }
}

// Moves the faces from one number up to another of a layer one step: each face's number, and what moves through it.
pub(crate) fn move_layer(
    before: &Before,
    layer: usize,
    from: usize,
    to: usize,
    faces: &mut [i64],
    flows: &mut [Salty],
)
    requires before { IsLawful before.now }
    requires layer { layer < before.now.layers }
    requires order { from ≤ to }
    requires within { to ≤ length before.now.links.now }
    requires faces { All IsFaceNumber faces.old }
    requires face_count { length faces.old ≡ before.now.layers * length before.now.links.now }
    requires flows { length flows.old ≡ length faces.old }
    ensures moved { HasMoved before.now layer from to faces.old faces.new flows.old flows.new }
    ensures others { (other : ℕ) → other ≢ layer → Stands before.now other faces.old faces.new flows.old flows.new }
    ensures range { All IsFaceNumber faces.new }
{
    let before = *before;
    let links = before.links;
    let heights = before.heights;
    let slope = before.slope;
    let begin = layer * heights.len();
    let first = layer * links.len();
    for f in from..to {
        let link = links[f];
        let place = first + f;
        let u = driven(slope, heights, link, faces[place]);
        flows[place] = flow(&before, begin, link, u);
        faces[place] = u;
    }
}

// What a side of a cell sees of what moves through the faces.
#[inline]
fn seen(flows: &[Salty], face: SideFace) -> Salty
    requires flows { All AreSmall flows.now }
    requires within { IsSideWithin (length flows.now) face }
    ensures value { result ≡ seen_flow (salty_at flows.now) face }
    ensures small { AreSmall result }
{
    match face {
        SideFace::Alone => NOTHING,
        SideFace::First(f) => flows[f as usize],
        SideFace::Second(f) => turned(flows[f as usize]),
    }
}

// What moves out of a cell through its four sides.
#[inline]
fn moved_out(flows: &[Salty], faces: CellFaces) -> Salty
    requires flows { All AreSmall flows.now }
    requires within { AreSidesWithin (length flows.now) faces }
    ensures value { result ≡ out_of (salty_at flows.now) faces }
    ensures few { AreFew result }
{
    let west = seen(flows, faces.west);
    let east = seen(flows, faces.east);
    let south = seen(flows, faces.south);
    let north = seen(flows, faces.north);
    sum_of_sides(west, east, south, north)
}

// What the transport leaves in some cells of a layer, which begin at this place of all layers', is put at a place of its own.
pub(crate) fn leave_layer(
    before: &Before,
    faces: &[CellFaces],
    flows: &[Salty],
    begin: usize,
    rest: &mut [Salty],
    place: usize,
)
    requires before { IsLawful before.now }
    requires faces { All (AreSidesWithin (length flows.now)) faces.now }
    requires flows { All AreSmall flows.now }
    requires within { begin + length faces.now ≤ length before.now.water.now }
    requires rest { place + length faces.now ≤ length rest.old }
    ensures left { (n : ℕ) → n < length faces.now
        → salty_at rest.new (place + n) ≡ without (cell_at before.now (begin + n)) (out_of (salty_at flows.now) (cell_faces_at faces.now n)) }
    ensures before { (spot : ℕ) → spot < place → salty_at rest.new spot ≡ salty_at rest.old spot }
{
    let before = *before;
    for n in 0..faces.len() {
        let out = moved_out(flows, faces[n]);
        rest[place + n] = without(before.cell(begin + n), out);
    }
}
