// What stays of a piece of the air: its areas, and the divisors of the flows through its faces.
ghost use Rattle.std.specs.Prelude.{◌≡◌, ◌^◌, pos, ◌-ℤ◌, ◌<ℤ◌, ◌≤◌, IfOk};
ghost use Rattle.cpl_layout.specs.Owners.{IsPiece};
ghost use Rattle.cpl_fixed.specs.Flows.{flow, IsAirAmount, IsAirArea, face_divisor};
ghost use Rattle.cpl_field.specs.Spots.{CellAt, IsShape, IsSpot, IsSameShape, number_at, out_from};
ghost use Rattle.cpl_atmos.specs.Sweeps.{AreAirAreas, AreAmounts, flow_out, next_at};
ghost use Rattle.cpl_atmos.specs.Faces.{IsDivisor};

use crate::faces::{eastward_faces, northward_faces};
use cpl_field::Field;
use cpl_fixed::{FaceDivisor, flow_with};
use cpl_layout::Piece;
use cpl_mosaic::Side;
use std::alloc::{AllocError, Global};
use std::marker::Model;

/// The areas of a piece's cells and holes, with the divisor of each face. Contracts see the areas.
#[derive(Drop)]
pub(crate) struct Areas {
    pub(crate) nx: u32,
    pub(crate) ny: u32,
    pub(crate) area: Field,
    pub(crate) eastward: Vec<FaceDivisor>,
    pub(crate) northward: Vec<FaceDivisor>,
}

impl Model for Areas {
    ghost use Rattle.cpl_field.specs.Spots.{FieldNumbers};
    ghost use Rattle.cpl_atmos.specs.Faces.{AreKept};

    ghost Value = { FieldNumbers };

    ghost view = { λ a. a.area };

    ghost invariant = { λ a. AreKept a.nx a.ny a.area a.eastward.items a.northward.items };
}

/// What flows between two cells. It is at most an eighth of what one of them has.
pub(crate) fn flow_across(divisor: FaceDivisor, x: i64, a: i64, y: i64, b: i64) -> i64
    requires divisor { divisor ≡ face_divisor a b }
    requires amount { IsAirAmount x }
    requires other_amount { IsAirAmount y }
    requires area { IsAirArea a }
    requires other_area { IsAirArea b }
    ensures value { result ≡ flow x a y b }
    ensures low { (pos 0 -ℤ pos (2 ^ 59)) <ℤ result }
    ensures high { result <ℤ pos (2 ^ 59) }
{
    flow_with(divisor, x, a, y, b)
}

impl Areas {
    /// Takes a copy of the areas, and the divisors of the faces between them.
    pub(crate) fn new(alloc: Global, piece: &Piece, area: &Field) -> Result<Areas, AllocError>
        requires piece { IsPiece piece.now }
        requires columns { area.now.nx ≡ piece.now.nx }
        requires rows { area.now.ny ≡ piece.now.ny }
        requires width { area.now.width ≡ 1 }
        requires areas { AreAirAreas area.now }
        ensures { IfOk result (λ areas. areas ≡ area.now) }
    {
        let (nx, ny) = (piece.nx, piece.ny);
        let eastward = eastward_faces(alloc, area, nx, ny)?;
        let northward = northward_faces(alloc, area, nx, ny)?;
        Ok(Areas {
            nx,
            ny,
            area: area.copy(alloc)?,
            eastward,
            northward,
        })
    }

    // The divisor of the flows through a side of a cell.
    fn divisor(&self, i: u32, j: u32, side: Side) -> FaceDivisor
        requires { IsSpot self.now (CellAt i j) }
        ensures { IsDivisor result (number_at self.now (CellAt i j)) (number_at self.now (out_from self.now i j side 1)) }
    {
        let (i, j, nx) = (i as usize, j as usize, self.nx as usize);
        match side {
            Side::W => self.eastward[j * (nx + 1) + i],
            Side::E => self.eastward[j * (nx + 1) + i + 1],
            Side::S => self.northward[j * nx + i],
            Side::N => self.northward[(j + 1) * nx + i],
        }
    }

    /// What flows out of a cell through a side.
    pub(crate) fn flow_out(&self, x: &Field, i: u32, j: u32, side: Side) -> i64
        requires cell { IsSpot self.now (CellAt i j) }
        requires shape { IsSameShape self.now x.now }
        requires amount { IsAirAmount (number_at x.now (CellAt i j)) }
        requires other_amount { IsAirAmount (number_at x.now (out_from x.now i j side 1)) }
        ensures value { result ≡ flow_out self.now x.now i j side }
        ensures low { (pos 0 -ℤ pos (2 ^ 59)) <ℤ result }
        ensures high { result <ℤ pos (2 ^ 59) }
    {
        let other = self.area.at(i, j, side, 1);
        if other == 0 {
            return 0;
        }
        let divisor = self.divisor(i, j, side);
        let amount = x.get(i, j);
        let area = self.area.get(i, j);
        let beyond = x.at(i, j, side, 1);
        flow_across(divisor, amount, area, beyond, other)
    }

    // The same, where all amounts are those of an air.
    fn any_flow(&self, x: &Field, i: u32, j: u32, side: Side) -> i64
        requires cell { IsSpot self.now (CellAt i j) }
        requires shape { IsSameShape self.now x.now }
        requires amounts { AreAmounts x.now }
        ensures value { result ≡ flow_out self.now x.now i j side }
        ensures low { (pos 0 -ℤ pos (2 ^ 59)) <ℤ result }
        ensures high { result <ℤ pos (2 ^ 59) }
    {
        // The areas are opened here: their halo is one cell wide.
        let _areas = &self.area;
        self.flow_out(x, i, j, side)
    }

    /// The amount of a cell after a step.
    pub(crate) fn next_at(&self, x: &Field, i: u32, j: u32) -> i64
        requires cell { IsSpot self.now (CellAt i j) }
        requires shape { IsSameShape self.now x.now }
        requires amounts { AreAmounts x.now }
        ensures { result ≡ next_at self.now x.now i j }
    {
        let west = self.any_flow(x, i, j, Side::W);
        let east = self.any_flow(x, i, j, Side::E);
        let south = self.any_flow(x, i, j, Side::S);
        let north = self.any_flow(x, i, j, Side::N);
        x.get(i, j) - (west + east + south + north)
    }
}
