// Where each number of a value stands.
ghost use Rattle.std.specs.Prelude.{◌≡◌, ℕ, ◌+◌, ◌*◌, ◌<◌, List, ℤ};
ghost use Rattle.cpl_layout.specs.Layouts.{Cuts};
ghost use Rattle.cpl_mosaic.specs.declared.parts.Side.{Side};
ghost use Rattle.cpl_xgrid.specs.Lists.{IsColumn};
ghost use Rattle.cpl_land.specs.Land.{runoff};
ghost use Rattle.cpl_state.specs.States.{layers, ocean_cells, part_count};
ghost use Rattle.cpl_state.specs.Elements.{surface_number};
ghost use Rattle.cpl_state.specs.Slow.{drain, drained_cell, returned_at};
ghost use Rattle.cpl_state.specs.Cut.{cut_at, to_ice_numbers};
ghost use Rattle.cpl_rounds.specs.Rounds.{PlanParts, mid_at, fast_step, air_at, land_at, ocean_at, to_ice_at, to_ocean_at};
ghost use Rattle.cpl_rounds.specs.Values.{land_numbers, runoff_numbers, salty_numbers, on_land, on_ocean, element_numbers, seen_numbers, element_flows, share_of_runoff, land_to_air, ice_to_air, air_to_land, air_to_ice, land_to_ice, ice_to_ocean, ocean_to_ice, air_halo, ocean_halo, by_fast_step, by_ocean_step, cells_at, sides_at};
ghost use Rattle.cpl_rounds.specs.Blocks.{AreBelow, HasBlocks, HasElements, HasPairs, HasSea, AreCellsAt, AreSidesAt};

/// From the land to the air: heat and water of each row's land cell before the fast step.
pub fn land_to_air_law()
    ensures { (plan : PlanParts) (n i : ℕ) (rows : List ℕ)
        → HasBlocks 2 (λ row. land_numbers (land_at plan n i (surface_number plan.grid (on_land row)))) rows (land_to_air plan n i rows) }
{}

/// From the ice to the air: of each element its area, and area, heat and mass of its part of the surface before the fast step. The areas are
/// those of the coupling step, heat and mass those of the cell of the ice.
pub fn ice_to_air_law()
    ensures numbers { (plan : PlanParts) (n i : ℕ) (rows : List ℕ)
        → HasElements (part_count plan.grid) (element_numbers plan.grid (mid_at plan n i)) rows (ice_to_air plan n i rows) }
    ensures rounds { (plan : PlanParts) (n i : ℕ) (rows : List ℕ) → IsColumn plan.grid.column
        → HasElements (part_count plan.grid) (seen_numbers plan n i) rows (ice_to_air plan n i rows) }
{}

/// From the air to the land: of each row the heat to the land, the water from it, the sun that it absorbs and the rain on it.
pub fn air_to_land_law()
    ensures { (plan : PlanParts) (n i : ℕ) (rows : List ℕ)
        → HasBlocks 4 (λ row. element_flows (fast_step plan n i) (on_land row) 0) rows (air_to_land plan n i rows) }
{}

/// From the air to the ice: the same of each element of each row.
pub fn air_to_ice_law()
    ensures { (plan : PlanParts) (n i : ℕ) (rows : List ℕ)
        → HasElements (part_count plan.grid) (λ row. element_flows (fast_step plan n i) (on_ocean row)) rows (air_to_ice plan n i rows) }
{}

/// From the land to the ice: water and heat that each outlet brings, its share of what runs off its cell.
pub fn land_to_ice_law()
    ensures numbers { (plan : PlanParts) (n : ℕ) (outlets : List ℕ)
        → HasBlocks 2 (λ o. runoff_numbers (drain plan.grid plan.names.rates (mid_at plan n plan.names.fast).whole o)) outlets (land_to_ice plan n outlets) }
    ensures rounds { (plan : PlanParts) (n : ℕ) (outlets : List ℕ)
        → HasBlocks 2 (λ o. runoff_numbers (share_of_runoff plan.grid (runoff plan.names.rates (land_at plan n plan.names.fast (drained_cell plan.grid o))) o)) outlets (land_to_ice plan n outlets) }
{}

/// From the ice to the ocean: water, heat and salt that each cell gives back, which fly to the ocean in the next coupling step.
pub fn ice_to_ocean_law()
    ensures numbers { (plan : PlanParts) (n : ℕ) (cells : List ℕ)
        → HasBlocks 3 (λ c. salty_numbers (returned_at plan.grid plan.names.rates (mid_at plan n plan.names.fast) c)) cells (ice_to_ocean plan n cells) }
    ensures rounds { (plan : PlanParts) (n : ℕ) (cells : List ℕ) → AreBelow (ocean_cells plan.grid) cells
        → HasBlocks 3 (λ c. salty_numbers (to_ocean_at plan (n + 1) c)) cells (ice_to_ocean plan n cells) }
{}

/// From the ocean to the ice: frazil water and heat, and water, heat and salt of the skin that each cell cuts off, which fly to the ice in
/// the next coupling step.
pub fn ocean_to_ice_law()
    ensures numbers { (plan : PlanParts) (n : ℕ) (cells : List ℕ)
        → HasBlocks 5 (λ c. to_ice_numbers (cut_at plan.grid.ocean (ocean_at plan n (plan.names.ocean_steps + 1)) c)) cells (ocean_to_ice plan n cells) }
    ensures rounds { (plan : PlanParts) (n : ℕ) (cells : List ℕ) → AreBelow (ocean_cells plan.grid) cells
        → HasBlocks 5 (λ c. to_ice_numbers (to_ice_at plan (n + 1) c)) cells (ocean_to_ice plan n cells) }
{}

/// Halos of the air: the heat of each cell before the diffusion, and then the vapour of each.
pub fn air_halo_law()
    ensures { (plan : PlanParts) (n i : ℕ) (cells : List ℕ)
        → HasPairs (λ c. (air_at plan n (2 * i + 1) c).heat) (λ c. (air_at plan n (2 * i + 1) c).vapour) cells (air_halo plan n i cells) }
{}

/// Halos of the ocean: water, heat and salt of each cell, layer by layer, and then the numbers of the faces, layer by layer.
pub fn ocean_halo_law()
    ensures { (plan : PlanParts) (n i : ℕ) (cells : List ℕ) (sides : List (ℕ × Side))
        → HasSea plan.grid.ocean (layers plan.grid) (ocean_at plan n (i + 1)) cells sides (ocean_halo plan n i cells sides) }
{}

/// The cells and the sides of cells that halos carry are those at their places in their piece.
pub fn places_law()
    ensures cells { (layout : Cuts) (piece : ℕ) (places : List (ℕ × ℕ)) → AreCellsAt layout piece places (cells_at layout piece places) }
    ensures sides { (layout : Cuts) (piece : ℕ) (spots : List (ℕ × ℕ × Side)) → AreSidesAt layout piece spots (sides_at layout piece spots) }
{}

/// Use n * M + i, where a coupling step has M fast steps, is that of fast step i of coupling step n; steps of the ocean alike.
pub fn uses_law()
    ensures fast { (plan : PlanParts) (value : ℕ → ℕ → List ℤ) (n i : ℕ) → i < plan.names.fast → by_fast_step plan value (n * plan.names.fast + i) ≡ value n i }
    ensures ocean { (plan : PlanParts) (value : ℕ → ℕ → List ℤ) (n i : ℕ) → i < plan.names.ocean_steps → by_ocean_step plan value (n * plan.names.ocean_steps + i) ≡ value n i }
{}
