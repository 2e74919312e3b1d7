// The example of two cells side by side.
ghost use Rattle.std.specs.Prelude.{◌≡◌, [], ◌∷◌, pos, negsuc};
ghost use Rattle.cpl_mosaic.specs.declared.parts.Side.TheVariants.{W, E};
ghost use Rattle.cpl_rounds.specs.Rounds.{ocean_at};
ghost use Rattle.cpl_rounds.specs.Values.{ocean_halo};
ghost use Rattle.cpl_rounds_tests.specs.TwoCells.{two_cells};

/// Halos before the first and the second step: water, heat and salt of both cells, and then the number of the face between them, outward
/// from the first cell and from the second, which sees its negative.
pub fn face_values()
    ensures first { ocean_halo two_cells 0 0 (0 ∷ 1 ∷ []) ((0, E) ∷ (1, W) ∷ []) ≡ pos 80 ∷ pos 0 ∷ pos 1000 ∷ pos 0 ∷ pos 16 ∷ pos 0 ∷ pos 0 ∷ pos 0 ∷ [] }
    ensures second { ocean_halo two_cells 0 1 (0 ∷ 1 ∷ []) ((0, E) ∷ (1, W) ∷ [])
        ≡ pos 70 ∷ pos 10 ∷ pos 875 ∷ pos 125 ∷ pos 14 ∷ pos 2 ∷ pos 80 ∷ negsuc 79 ∷ [] }
{}

/// The second step moves 8 of water.
pub fn water_values()
    ensures water { (ocean_at two_cells 0 3).water ≡ pos 62 ∷ pos 18 ∷ [] }
    ensures face { (ocean_at two_cells 0 3).faces ≡ pos 135 ∷ [] }
{}
