// Tiles that a test makes.
ghost use Rattle.std.specs.Bool.{OnTrue};
ghost use Rattle.cpl_mosaic.specs.Contacts.{AreTiles};

use cpl_mosaic::Tile;

/// Whether there are 1 to 16 tiles, each of at most 64 by 64 cells.
pub fn are_small_tiles(tiles: &[Tile]) -> bool
    ensures { OnTrue result (AreTiles tiles.now) }
{
    if tiles.is_empty() || tiles.len() > 16 {
        return false;
    }
    for tile in tiles {
        if tile.nx == 0 || tile.nx > 64 || tile.ny == 0 || tile.ny > 64 {
            return false;
        }
    }
    true
}
