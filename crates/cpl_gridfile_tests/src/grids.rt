// A coupled grid that is read and printed.
ghost use Rattle.std.specs.Prelude.{IfOk};
ghost use Rattle.cpl_xgrid.specs.Grids.{IsGrid};

use cpl_gridfile::{print_grid, read_grid};
use cpl_mosaic::CellId;
use cpl_xgrid::{Column, Grid, Outlet, Surface, XRow};
use std::alloc::Global;
use std::test::Fail;

// One column: a cyclic air cell of area 16 over 4 of land and 12 of ocean.
const ONE_COLUMN: &str = "grid 1 coupled
mosaic atmos 1\ntile 1 1\narea 16\ncontacts 1\ncontact 0 W 0 0 0 E 0 0 0
mosaic land 1\ntile 1 1\narea 4\ncontacts 0
mosaic ocean 1\ntile 1 1\narea 12\ncontacts 0
column 2 3
xgrid land 1\nx 0 0 0 0 0 0 4
xgrid ocean 1\nx 0 0 0 0 0 0 12
outlets 1\no 0 0 0 0 0 0 7
end
";

fn coupled(alloc: Global, text: &str) -> Result<Grid, Fail>
    ensures { IfOk result IsGrid }
{
    match read_grid(alloc, text.as_bytes()) {
        Ok(grid) => Ok(grid),
        Err(_) => Err("the text is a coupled grid's")?,
    }
}

#[test]
fn one_column_is_read_and_printed(rt: HostRuntime) -> Result<(), Fail> {
    let grid = coupled(rt.alloc(), ONE_COLUMN)?;
    let cell = CellId {
        tile: 0,
        i: 0,
        j: 0,
    };
    let column = Column {
        layers: 2,
        categories: 3,
    };
    assert_eq!(rt; grid.column, column);
    assert_eq!(rt; grid.air.area.as_slice(), [16].as_slice());
    assert_eq!(rt; grid.land.area.as_slice(), [4].as_slice());
    let row = XRow {
        air: cell,
        other: cell,
        area: 12,
    };
    assert_eq!(rt; grid.xgrid.rows(Surface::Ocean), [row].as_slice());
    let outlet = Outlet {
        land: cell,
        ocean: cell,
        weight: 7,
    };
    assert_eq!(rt; grid.xgrid.outlets(), [outlet].as_slice());
    let text = print_grid(rt.alloc(), &grid)?;
    assert_eq!(rt; text.as_slice(), ONE_COLUMN.as_bytes());
    Ok(())
}
