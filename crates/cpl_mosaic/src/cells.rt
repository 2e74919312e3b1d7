// Cells in whole order.
ghost use Rattle.std.specs.Prelude.{◌≡◌, ◌<◌};
ghost use Rattle.cpl_mosaic.specs.Contacts.{AreTiles, cells_of};
ghost use Rattle.cpl_mosaic.specs.Cells.{cell_of};

use crate::{CellId, Tile};

// The cell of a number in whole order.
pub(crate) fn cell_of(tiles: &[Tile], number: u32) -> CellId
    requires sizes { AreTiles tiles.now }
    requires within { number < cells_of tiles.now }
    ensures { result ≡ cell_of tiles.now number }
{
    let mut rest = number;
    for (t, tile) in tiles.iter().enumerate() {
        let cells = tile.nx * tile.ny;
        if rest < cells {
            return CellId {
                tile: t as u32,
                i: rest % tile.nx,
                j: rest / tile.nx,
            };
        }
        rest -= cells;
    }
    unreachable!()
}
