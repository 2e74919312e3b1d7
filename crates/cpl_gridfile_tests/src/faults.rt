// The exact place of the first fault.
use cpl_fixed::Component::Atmos;
use cpl_gridfile::GridError::{
    AirSum, Area, ContactRange, Limit, NoOutlet, Outlet, Syntax, ZeroArea,
};
use cpl_gridfile::{GridError, read_air, read_grid};
use cpl_xgrid::Surface;
use std::alloc::Global;
use std::process::Abort;
use std::test::Fail;

// Mosaics and tiles of an air grid. The earlier line decides, and in one line the form.
const HEAD: &str = "grid 1 air\n";

const FIRST_LINES: [(&'static str, GridError); 14] = [
    ("", Syntax(2)),
    ("mosaic land 1\n", Syntax(2)),
    ("mosaic atmos 01\n", Syntax(2)),
    ("mosaic atmos 1 \n", Syntax(2)),
    ("mosaic atmos 10000000000000000000\n", Syntax(2)),
    ("mosaic atmos 9999999999999999999\n", Limit(2)),
    ("mosaic atmos 0\n", Limit(2)),
    ("mosaic atmos 17\n", Limit(2)),
    ("mosaic atmos 1\ntile 0 1\n", Limit(3)),
    ("mosaic atmos 1\ntile 1 1025\n", Limit(3)),
    ("mosaic atmos 1\ntile 1024 1024\n", Limit(3)),
    ("mosaic atmos 1\ntile 0 1\narea 1  1\n", Limit(3)),
    ("mosaic atmos 1\ntile 1025 01\n", Syntax(3)),
    ("mosaic atmos 2\ntile 1 1\narea 1\ncontacts 0\n", Syntax(5)),
];

// Rows of a tile of two cells.
const TWO_CELLS: &str = "grid 1 air\nmosaic atmos 1\ntile 2 1\n";

const ROWS: [(&'static str, GridError); 9] = [
    ("area 1  1\ncontacts 0\nend\n", Syntax(4)),
    ("area 1\ncontacts 0\nend\n", Syntax(4)),
    ("area 1 1 1\ncontacts 0\nend\n", Syntax(4)),
    ("area 1099511627776 1099511627777\n", Limit(4)),
    ("area 1099511627777 \n", Syntax(4)),
    ("area 1  1\ncontacts 257\n", Syntax(4)),
    ("area 1 0\ncontacts 0\nend\n\n", Syntax(7)),
    ("area 1 0\ncontacts 0\nend\n", Area(Atmos, 1)),
    ("area 1 1\ncontacts 0\nend", Syntax(6)),
];

// Contacts of a tile of two cells.
const TWO_AREAS: &str = "grid 1 air\nmosaic atmos 1\ntile 2 1\narea 1 1\n";

const CONTACTS: [(&'static str, GridError); 6] = [
    ("end\n", Syntax(5)),
    ("contacts 257\n", Limit(5)),
    ("contacts 1\ncontact 0 W 0 0 0 E 0 0 2\nend\n", Syntax(6)),
    ("contacts 1\ncontact 0 w 0 0 0 E 0 0 0\nend\n", Syntax(6)),
    ("contacts 1\ncontact 0 W 0 65536 0 E 0 0 0\n", Limit(6)),
    (
        "contacts 1\ncontact 0 W 0 1 0 E 0 1 0\nend\n",
        ContactRange(Atmos, 0),
    ),
];

// What comes after the air's mesh of a coupled grid.
const AIR: &str = "grid 1 coupled\nmosaic atmos 1\ntile 1 1\narea 16\ncontacts 0\n";

const MESHES: [(&'static str, GridError); 3] = [
    ("end\n", Syntax(6)),
    ("mosaic ocean 1\n", Syntax(6)),
    ("mosaic land 17\n", Limit(6)),
];

// The column and the lists, after three meshes.
const THREE_MESHES: &str = "grid 1 coupled\nmosaic atmos 1\ntile 1 1\narea 16\ncontacts 0
mosaic land 1\ntile 1 1\narea 4\ncontacts 0\nmosaic ocean 1\ntile 1 1\narea 12\ncontacts 0\n";

const LISTS: [(&'static str, GridError); 10] = [
    ("column 1\n", Syntax(14)),
    ("column 0 1\n", Limit(14)),
    ("column 8 6\n", Limit(14)),
    ("column 8 5\nxgrid ocean 0\n", Syntax(15)),
    ("column 1 1\nxgrid land 1048577\n", Limit(15)),
    ("column 1 1\nxgrid land 1\no 0 0 0 0 0 0 1\n", Syntax(16)),
    ("column 1 1\nxgrid land 1\nx 0 0 65536 0 0 0 1\n", Limit(16)),
    (
        "column 1 1\nxgrid land 1\nx 0 0 0 0 0 0 4\nxgrid ocean 1048576\n",
        Limit(17),
    ),
    (
        "column 1 1\nxgrid land 0\nxgrid ocean 0\noutlets 262145\n",
        Limit(17),
    ),
    (
        "column 1 1\nxgrid land 0\nxgrid ocean 0\noutlets 0\nend\nend\n",
        Syntax(19),
    ),
];

// The rules of the exchange grid, after an exchange cell of the land.
const ONE_ROW: &str = "grid 1 coupled\nmosaic atmos 1\ntile 1 1\narea 16\ncontacts 0
mosaic land 1\ntile 1 1\narea 4\ncontacts 0\nmosaic ocean 1\ntile 1 1\narea 12\ncontacts 0
column 1 1\nxgrid land 1\nx 0 0 0 0 0 0 4\nxgrid ocean 1\n";

const RULES: [(&'static str, GridError); 5] = [
    (
        "x 0 0 0 0 0 0 0\noutlets 0\nend\n",
        ZeroArea(Surface::Ocean, 0),
    ),
    ("x 0 0 0 0 0 0 11\noutlets 0\nend\n", AirSum(0, 15, 16)),
    ("x 0 0 0 0 0 0 12\noutlets 0\nend\n", NoOutlet(0)),
    (
        "x 0 0 0 0 0 0 12\noutlets 1\no 0 0 0 0 0 0 0\nend\n",
        Outlet(0),
    ),
    (
        "x 0 0 0 0 0 0 12\noutlets 1\no 0 0 0 0 1 0 1\nend\n",
        Outlet(0),
    ),
];

// Each text after this beginning has its fault as an air grid.
fn air_faults(
    rt: &impl Abort,
    alloc: Global,
    begin: &str,
    cases: &[(&'static str, GridError)],
) -> Result<(), Fail> {
    for (text, fault) in cases {
        let whole = format!(in alloc; "{begin}{text}")?;
        assert_eq!(rt;
            read_air(alloc, whole.as_bytes()).err(),
            Some(*fault),
            "at {whole}"
        );
    }
    Ok(())
}

// Each text after this beginning has its fault as a coupled grid.
fn grid_faults(
    rt: &impl Abort,
    alloc: Global,
    begin: &str,
    cases: &[(&'static str, GridError)],
) -> Result<(), Fail> {
    for (text, fault) in cases {
        let whole = format!(in alloc; "{begin}{text}")?;
        assert_eq!(rt;
            read_grid(alloc, whole.as_bytes()).err(),
            Some(*fault),
            "at {whole}"
        );
    }
    Ok(())
}

#[test]
fn air_grids(rt: HostRuntime) -> Result<(), Fail> {
    air_faults(&rt, rt.alloc(), HEAD, &FIRST_LINES)?;
    air_faults(&rt, rt.alloc(), TWO_CELLS, &ROWS)?;
    air_faults(&rt, rt.alloc(), TWO_AREAS, &CONTACTS)
}

#[test]
fn coupled_grids(rt: HostRuntime) -> Result<(), Fail> {
    grid_faults(&rt, rt.alloc(), AIR, &MESHES)?;
    grid_faults(&rt, rt.alloc(), THREE_MESHES, &LISTS)?;
    grid_faults(&rt, rt.alloc(), ONE_ROW, &RULES)
}
