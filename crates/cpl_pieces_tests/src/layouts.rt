// Worked cases of layouts.
ghost use Rattle.std.specs.Prelude.{◌≡◌, IfOk};

use crate::shapes::{Shape, make};
use cpl_fixed::LayoutError;
use cpl_fixed::LayoutError::{TooFine, TooManyPieces};
use cpl_layout::{Layout, extent};
use cpl_mosaic::{CellId, Mosaic};
use std::alloc::Global;
use std::test::Fail;

/// A mosaic, and into how many columns and rows of pieces each tile is cut.
pub(crate) type Cut = (Shape, u32, u32);

/// A layout of 1 to 64 by 1 to 64 pieces. Other numbers count as no memory here.
pub(crate) fn cut(alloc: Global, mosaic: &Mosaic, px: u32, py: u32) -> Result<Layout, LayoutError>
    ensures { IfOk result (λ layout. layout.tiles ≡ mosaic.now.tiles) }
{
    if px == 0 || px > 64 || py == 0 || py > 64 {
        return Err(LayoutError::Memory);
    }
    Layout::new(alloc, mosaic, px, py)
}

// The piece that has a cell of the first row of tile 0.
fn owner(layout: &Layout, i: u32) -> Option<u32> {
    for p in 0..layout.pieces() {
        let piece = layout.piece(p);
        if piece.tile == 0 && piece.j0 == 0 && piece.i0 <= i && i - piece.i0 < piece.nx {
            return Some(layout.owner(CellId { tile: 0, i, j: 0 }));
        }
    }
    None
}

// Where 7 cells are cut in three, and how many cells each part has.
const EXTENTS: [(u32, u32); 3] = [(0, 3), (3, 2), (5, 2)];

const OWNERS: [u32; 7] = [0, 0, 0, 1, 1, 2, 2];

#[test]
fn seven_cells_in_three_parts(rt: HostRuntime) -> Result<(), Fail> {
    for p in 0..3 {
        assert_eq!(rt; extent(7, 3, p), EXTENTS[p as usize], "at {p}");
    }
    let mosaic = make(rt.alloc(), (&[(7, 1)], &[]))?;
    let layout = cut(rt.alloc(), &mosaic, 3, 1)?;
    assert_eq!(rt; layout.pieces(), 3);
    for i in 0..7 {
        assert_eq!(rt; owner(&layout, i), Some(OWNERS[i as usize]), "at {i}");
    }
    Ok(())
}

const REFUSED: [(&[(u32, u32)], u32, u32, Option<LayoutError>); 5] = [
    (&[(3, 3)], 3, 3, None),
    (&[(3, 3)], 4, 1, Some(TooFine(0))),
    (&[(5, 5), (5, 2)], 5, 3, Some(TooFine(1))),
    (&[(4, 4); 6], 4, 3, Some(TooManyPieces(72))),
    (&[(2, 2); 6], 4, 4, Some(TooManyPieces(96))),
];

#[test]
fn layouts_that_do_not_fit(rt: HostRuntime) -> Result<(), Fail> {
    for (tiles, px, py, want) in REFUSED {
        let mosaic = make(rt.alloc(), (tiles, &[]))?;
        let layout = cut(rt.alloc(), &mosaic, px, py);
        assert_eq!(rt; layout.err(), want, "{px} by {py}");
    }
    Ok(())
}
