// The cells of each piece.
ghost use Rattle.cpl_layout.specs.Layouts.{Cuts, IsLayout};
ghost use Rattle.cpl_layout.specs.Own.{OwnCellsAgree};

/// The cells of the pieces of a layout, by their numbers in whole order: each stands in exactly one piece, its owner, and
/// row by row there. So a sum over all cells is the sum over the pieces of the sums over their own cells.
pub fn own_law()
    ensures { (layout : Cuts) → IsLayout layout → OwnCellsAgree layout }
{}
