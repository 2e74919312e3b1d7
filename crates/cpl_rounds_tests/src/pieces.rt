// The example of one column by its pieces: the air is piece 0, the land 1, the ice 2 and the ocean 3. The numbers were worked out by hand.
ghost use Rattle.std.specs.Prelude.{◌≡◌, [], ◌∷◌, ◌++◌, map, negsuc, pos};
ghost use Rattle.cpl_wires.specs.declared.parts.Purpose.TheVariants.{LandToAir, IceToAir, AirToLand, AirToIce, LandToIce, IceToOcean, OceanToIce, Sums};
ghost use Rattle.cpl_wires.specs.Pairs.{carried};
ghost use Rattle.cpl_wires.specs.Edges.{edges_of, length_of};
ghost use Rattle.cpl_plan.specs.Plans.{setting_of};
ghost use Rattle.cpl_plan.specs.PieceSums.{part_sums};
ghost use Rattle.cpl_rounds.specs.Values.{ice_to_air};
ghost use Rattle.cpl_rounds_tests.specs.OneColumn.{one_column};
ghost use Rattle.cpl_rounds_tests.specs.Pieces.{an_edge, given, no_rows, sent, split_column, taken};

/// Who hands to whom, and how many numbers: the one cell of the air and that of the ocean meet no other, so there are no halos.
pub fn column_edges()
    ensures edges { edges_of (setting_of one_column)
        ≡ an_edge LandToAir 1 0 ∷ an_edge IceToAir 2 0 ∷ an_edge AirToLand 0 1 ∷ an_edge AirToIce 0 2 ∷ an_edge LandToIce 1 2 ∷ an_edge IceToOcean 2 3 ∷ an_edge OceanToIce 3 2
        ∷ an_edge Sums 0 0 ∷ an_edge Sums 1 0 ∷ an_edge Sums 2 0 ∷ an_edge Sums 3 0 ∷ [] }
    ensures lengths { map (length_of (setting_of one_column)) (edges_of (setting_of one_column)) ≡ 2 ∷ 8 ∷ 4 ∷ 8 ∷ 2 ∷ 3 ∷ 5 ∷ 168 ∷ 168 ∷ 168 ∷ 168 ∷ [] }
    ensures land { carried (setting_of one_column) LandToAir 1 0 ≡ 0 ∷ [] }
    ensures ice { carried (setting_of one_column) AirToIce 0 2 ≡ 0 ∷ [] }
    ensures runoff { carried (setting_of one_column) LandToIce 1 2 ≡ 0 ∷ [] }
    ensures ocean { carried (setting_of one_column) OceanToIce 3 2 ≡ 0 ∷ [] }
{}

/// What the pieces have in the rows of the start. The ocean's cell has what flies to the ice, and the ice's what flies to the ocean.
pub fn column_start_sums()
    ensures air { (part_sums one_column 0 0).stocks
        ≡ (pos 44800 ∷ pos 0 ∷ pos 0 ∷ pos 0 ∷ pos 0 ∷ pos 0 ∷ pos 0 ∷ pos 0 ∷ []) ∷ (pos 0 ∷ pos 0 ∷ pos 0 ∷ pos 0 ∷ pos 0 ∷ pos 0 ∷ pos 0 ∷ pos 0 ∷ []) ∷ (pos 0 ∷ pos 0 ∷ pos 0 ∷ pos 0 ∷ pos 0 ∷ pos 0 ∷ pos 0 ∷ pos 0 ∷ []) ∷ [] }
    ensures ice { (part_sums one_column 2 0).stocks
        ≡ (pos 0 ∷ pos 0 ∷ pos 0 ∷ pos 0 ∷ pos 0 ∷ pos 71300 ∷ pos 0 ∷ pos 0 ∷ []) ∷ (pos 0 ∷ pos 0 ∷ pos 0 ∷ pos 0 ∷ pos 0 ∷ pos 50 ∷ pos 0 ∷ pos 0 ∷ []) ∷ (pos 0 ∷ pos 0 ∷ pos 0 ∷ pos 0 ∷ pos 0 ∷ pos 5 ∷ pos 0 ∷ pos 0 ∷ []) ∷ [] }
    ensures ocean { (part_sums one_column 3 0).stocks
        ≡ (pos 0 ∷ pos 0 ∷ pos 0 ∷ pos 570400 ∷ pos 142600 ∷ pos 0 ∷ pos 0 ∷ pos 0 ∷ []) ∷ (pos 0 ∷ pos 0 ∷ pos 0 ∷ pos 400 ∷ pos 100 ∷ pos 0 ∷ pos 0 ∷ pos 0 ∷ []) ∷ (pos 0 ∷ pos 0 ∷ pos 0 ∷ pos 40 ∷ pos 10 ∷ pos 0 ∷ pos 0 ∷ pos 0 ∷ []) ∷ [] }
    ensures nothing { (part_sums one_column 3 0).exchanges ≡ no_rows 15 }
{}

/// What they have in the rows after the coupling step: 140 of heat entered and 43 left through the air.
pub fn column_step_sums()
    ensures entered { (part_sums one_column 0 1).stocks
        ≡ (pos 57500 ∷ pos 0 ∷ pos 0 ∷ pos 0 ∷ pos 0 ∷ pos 0 ∷ pos 140 ∷ pos 43 ∷ []) ∷ (pos 2 ∷ pos 0 ∷ pos 0 ∷ pos 0 ∷ pos 0 ∷ pos 0 ∷ pos 0 ∷ pos 0 ∷ []) ∷ (pos 0 ∷ pos 0 ∷ pos 0 ∷ pos 0 ∷ pos 0 ∷ pos 0 ∷ pos 0 ∷ pos 0 ∷ []) ∷ [] }
    ensures air { (part_sums one_column 0 1).exchanges ≡ given (pos 27) (pos 0) (pos 0) ++ given (negsuc 12769) (negsuc 1) (pos 0) ++ no_rows 9 }
    ensures land { (part_sums one_column 1 1).exchanges ≡ taken (pos 27) (pos 0) (pos 0) ++ no_rows 3 ++ given (pos 0) (pos 0) (pos 0) ++ no_rows 6 }
    ensures ice { (part_sums one_column 2 1).exchanges
        ≡ no_rows 3 ++ taken (negsuc 12769) (negsuc 1) (pos 0) ++ taken (pos 0) (pos 0) (pos 0) ++ taken (pos 142600) (pos 100) (pos 10)
        ++ sent (pos 71300) (pos 50) (pos 5) (pos 129938) (pos 98) (pos 10) }
    ensures ocean { (part_sums one_column 3 1).exchanges
        ≡ no_rows 9 ++ sent (pos 142600) (pos 100) (pos 10) (pos 160425) (pos 112) (pos 11) ++ taken (pos 71300) (pos 50) (pos 5) }
{}

/// Where two cells of the air lie over the same water, each sees its own half of it, 6, and the area of all, 12, whose heat and mass it is.
pub fn split_values()
    ensures { ice_to_air split_column 0 0 (0 ∷ 1 ∷ [])
        ≡ pos 6 ∷ pos 12 ∷ pos 142600 ∷ pos 100 ∷ pos 0 ∷ pos 0 ∷ pos 0 ∷ pos 0 ∷ pos 6 ∷ pos 12 ∷ pos 142600 ∷ pos 100 ∷ pos 0 ∷ pos 0 ∷ pos 0 ∷ pos 0 ∷ [] }
{}
