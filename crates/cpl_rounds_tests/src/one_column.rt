// The example of one column.
ghost use Rattle.std.specs.Prelude.{◌≡◌, [], ◌∷◌, pos};
ghost use Rattle.cpl_rounds.specs.Rounds.{state_at};
ghost use Rattle.cpl_rounds.specs.Values.{air_halo, air_to_ice, air_to_land, ice_to_air, ice_to_ocean, land_to_air, land_to_ice, ocean_halo, ocean_to_ice};
ghost use Rattle.cpl_rounds_tests.specs.OneColumn.{one_column, cold_column, column_start};

/// Between the air and the surface: the skin has 100 of water, and there is no ice. To the land flows 27 of heat, to the skin 82;
/// 4 evaporate there, and 2 rain on it.
pub fn surface_values()
    ensures land_to_air { land_to_air one_column 0 0 (0 ∷ []) ≡ pos 10920 ∷ pos 0 ∷ [] }
    ensures ice_to_air { ice_to_air one_column 0 0 (0 ∷ []) ≡ pos 12 ∷ pos 12 ∷ pos 142600 ∷ pos 100 ∷ pos 0 ∷ pos 0 ∷ pos 0 ∷ pos 0 ∷ [] }
    ensures air_to_land { air_to_land one_column 0 0 (0 ∷ []) ≡ pos 27 ∷ pos 0 ∷ pos 32 ∷ pos 0 ∷ [] }
    ensures air_to_ice { air_to_ice one_column 0 0 (0 ∷ []) ≡ pos 82 ∷ pos 4 ∷ pos 108 ∷ pos 2 ∷ pos 0 ∷ pos 0 ∷ pos 0 ∷ pos 0 ∷ [] }
    ensures air_halo { air_halo one_column 0 0 (0 ∷ []) ≡ pos 57500 ∷ pos 2 ∷ [] }
{}

/// At the end of the coupling step nothing runs off, and the ice gives the skin back.
pub fn slow_values()
    ensures land_to_ice { land_to_ice one_column 0 (0 ∷ []) ≡ pos 0 ∷ pos 0 ∷ [] }
    ensures ice_to_ocean { ice_to_ocean one_column 0 (0 ∷ []) ≡ pos 98 ∷ pos 129938 ∷ pos 10 ∷ [] }
{}

/// The ocean has added what flew to it, and cuts off a quarter; where its water is too cold, half of it freezes first.
pub fn sea_values()
    ensures ocean_halo { ocean_halo one_column 0 0 (0 ∷ []) [] ≡ pos 450 ∷ pos 641700 ∷ pos 45 ∷ [] }
    ensures ocean_to_ice { ocean_to_ice one_column 0 (0 ∷ []) ≡ pos 0 ∷ pos 0 ∷ pos 112 ∷ pos 160425 ∷ pos 11 ∷ [] }
    ensures frazil { ocean_to_ice cold_column 0 (0 ∷ []) ≡ pos 200 ∷ pos 218400 ∷ pos 50 ∷ pos 70400 ∷ pos 10 ∷ [] }
{}

/// The state after the coupling step.
pub fn column_step()
    ensures { state_at one_column 1 ≡ record column_start {
      elapsed = pos 3600;
      air_heat = pos 57500 ∷ [];
      air_vapour = pos 2 ∷ [];
      land_heat = pos 10979 ∷ [];
      water = pos 338 ∷ [];
      heat = pos 481275 ∷ [];
      salt = pos 34 ∷ [];
      to_ice = pos 0 ∷ pos 0 ∷ pos 112 ∷ pos 160425 ∷ pos 11 ∷ [];
      to_ocean = pos 98 ∷ pos 129938 ∷ pos 10 ∷ [];
    } }
{}

/// Over cold water the second coupling step makes ice: what froze in the first joins the category, and closes a sixth of the water.
pub fn cold_step()
    ensures parts { (state_at cold_column 2).parts ≡ pos 54614 ∷ pos 10922 ∷ [] }
    ensures ice { (state_at cold_column 2).ice ≡ pos 200 ∷ [] }
    ensures heat { (state_at cold_column 2).ice_heat ≡ pos 218400 ∷ [] }
{}
