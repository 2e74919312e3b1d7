// What leads from one round to the next.
ghost use Rattle.std.specs.Prelude.{◌≡◌, ℕ, ◌+◌, ◌-◌, ◌*◌, ◌<◌, ℤ, pos, ◌+ℤ◌, ◌-ℤ◌, ◌*ℤ◌};
ghost use Rattle.cpl_fixed.specs.Amounts.{at};
ghost use Rattle.cpl_fixed.specs.Shares.{part_of};
ghost use Rattle.cpl_fixed.specs.declared.limits.TheConstants.{VAPOUR_HEAT};
ghost use Rattle.cpl_flux.specs.Elements.{element};
ghost use Rattle.cpl_fixed.specs.declared.words.Component.TheVariants.{Atmos};
ghost use Rattle.cpl_mosaic.specs.declared.parts.Side.{Side};
ghost use Rattle.cpl_xgrid.specs.declared.parts.Surface.{Surface};
ghost use Rattle.cpl_xgrid.specs.declared.parts.Surface.TheVariants as surface;
ghost use Rattle.cpl_xgrid.specs.declared.parts.XRef.{XRef};
ghost use Rattle.cpl_xgrid.specs.Lists.{IsColumn};
ghost use Rattle.cpl_land.specs.Land.{dried, gained, runoff};
ghost use Rattle.cpl_ice.specs.Cells.{taken as with_flight_in};
ghost use Rattle.cpl_ice.specs.Slow.{slowed};
ghost use Rattle.cpl_transport.specs.Cells.{mixed_cell};
ghost use Rattle.cpl_transport.specs.Cuts.{uncut};
ghost use Rattle.cpl_transport.specs.Salts.{joined};
ghost use Rattle.cpl_state.specs.States.{air_cells, land_cells, ocean_cells, categories, layers, part_count, air_side, IsWet};
ghost use Rattle.cpl_state.specs.Diffusion.{diffused};
ghost use Rattle.cpl_state.specs.Elements.{air_number, element_area, over_all, part_area, refs_of_air_cell, share_at, surface_number};
ghost use Rattle.cpl_state.specs.FastStep.{absorbed, flux, for_each, fast_after, heat_before_rain, heat_down, land_part, land_taken, ocean_part, part_absorbed, rain, rain_on, sun_on, to_space, vapour_before_rain, water_up, with_sun};
ghost use Rattle.cpl_state.specs.Slow.{arrived, returned_at, returned_if_wet, runoff_of, slowed_if_wet};
ghost use Rattle.cpl_state.specs.Transport.{cell_in, next_number, outward, stepped, transported};
ghost use Rattle.cpl_state.specs.Cut.{after_cut, cut_at, with_flight};
ghost use Rattle.cpl_state.specs.CouplingStep.{after_fast, month_of, sea_after, step_after, taken};
ghost use Rattle.cpl_state.specs.SurfaceLaws.{fast_before};
ghost use Rattle.cpl_rounds.specs.Values.{on_land, on_ocean};
ghost use Rattle.cpl_rounds.specs.Rounds.{PlanParts, state_at, mid_at, fast_step, rounds_of, air_at, air_between, land_at, ice_at, ocean_at, without_flight, part_gain, gained_by, element_area_at, part_area_at, land_seen_at, ice_seen_at, outward_in, to_ice_at, to_ocean_at};

/// The states between coupling steps, and the states in them: each is a step after the one before it.
pub fn states_law()
    ensures start { (plan : PlanParts) → state_at plan 0 ≡ plan.start }
    ensures next { (plan : PlanParts) (n : ℕ) → state_at plan (n + 1) ≡ step_after plan.grid plan.names (state_at plan n) }
    ensures taken { (plan : PlanParts) (n : ℕ) → mid_at plan n 0 ≡ taken plan.grid (state_at plan n) }
    ensures fast { (plan : PlanParts) (n i : ℕ) → mid_at plan n (i + 1) ≡ fast_after (fast_step plan n i) }
    ensures before { (plan : PlanParts) (n i : ℕ) → fast_step plan n i ≡ fast_before plan.grid plan.names (state_at plan n) i }
    ensures after { (plan : PlanParts) (n : ℕ) → mid_at plan n plan.names.fast ≡ after_fast plan.grid plan.names (state_at plan n) }
{}

/// The air in a fast step: its first round lets the sun and the fluxes in and the rain out, its second diffuses heat and vapour.
pub fn air_law()
    ensures before { (plan : PlanParts) (n i c : ℕ) → air_at plan n (2 * i) c ≡ air_side plan.grid (mid_at plan n i).whole c }
    ensures rain { (plan : PlanParts) (n i c : ℕ) → air_at plan n (2 * i + 1) c ≡ air_between plan n i c }
    ensures heat { (plan : PlanParts) (n i c : ℕ) → (air_at plan n (2 * i + 2) c).heat
        ≡ at (diffused plan.grid.air (for_each (air_cells plan.grid) (λ c. (air_at plan n (2 * i + 1) c).heat))) c }
    ensures vapour { (plan : PlanParts) (n i c : ℕ) → (air_at plan n (2 * i + 2) c).vapour
        ≡ at (diffused plan.grid.air (for_each (air_cells plan.grid) (λ c. (air_at plan n (2 * i + 1) c).vapour))) c }
{}

/// The sun on the cells of the air is that of the start in all steps.
pub fn sun_law()
    ensures { (plan : PlanParts) (n i : ℕ) → (mid_at plan n i).whole.air_sun ≡ plan.start.air_sun }
{}

/// A cell of the land gains in each fast step what its elements take, with the sun.
pub fn land_law()
    ensures { (plan : PlanParts) (n i c : ℕ) → c < land_cells plan.grid
        → land_at plan n (i + 1) c ≡ gained (land_at plan n i c) (with_sun (land_taken (fast_step plan n i) c) (part_absorbed (fast_step plan n i) surface.Land c 0)) }
{}

/// A cell of the ice takes the flight to it, and then each of its parts gains in each fast step.
pub fn ice_law()
    ensures flight { (plan : PlanParts) (n c : ℕ) → c < ocean_cells plan.grid → ice_at plan n 1 c ≡ with_flight_in (ice_at plan n 0 c) (to_ice_at plan n c) }
    ensures fast { (plan : PlanParts) (n i c : ℕ) → IsColumn plan.grid.column → c < ocean_cells plan.grid
        → ice_at plan n (i + 2) c ≡ gained_by (part_count plan.grid) (part_gain (fast_step plan n i) c) (ice_at plan n (i + 1) c) }
{}

/// No fast step changes the areas of elements and of parts of the surface, nor how an amount is divided over elements.
pub fn areas_law()
    ensures element { (plan : PlanParts) (n i : ℕ) (ref : XRef) (k : ℕ) → element_area plan.grid (mid_at plan n i).whole ref k ≡ element_area_at plan n ref k }
    ensures part { (plan : PlanParts) (n i : ℕ) (list : Surface) (c k : ℕ) → part_area plan.grid (mid_at plan n i).whole list c k ≡ part_area_at plan n list c k }
    ensures share { (plan : PlanParts) (n i : ℕ) (amount : ℤ) (ref : XRef) (k : ℕ)
        → share_at plan.grid (mid_at plan n i).whole amount ref k ≡ share_at plan.grid (state_at plan n) amount ref k }
{}

/// What the air sees in a fast step is what the cells of land and ice hold before it, with the areas of the coupling step.
pub fn seen_law()
    ensures land { (plan : PlanParts) (n i c : ℕ) → land_part plan.grid (mid_at plan n i) c ≡ land_seen_at plan n i c }
    ensures ice { (plan : PlanParts) (n i c k : ℕ) → IsColumn plan.grid.column → k < part_count plan.grid
        → ocean_part plan.grid (mid_at plan n i) c k ≡ ice_seen_at plan n i c k }
{}

/// What a fast step goes by, cell by cell before it: what flows through an element is between the cell of the air and the part that the air
/// sees; the sun and what an element absorbs of it are those of the coupling step.
pub fn flows_law()
    ensures land { (plan : PlanParts) (n i row : ℕ) → let ref = on_land row in flux (fast_step plan n i) ref 0
        ≡ element plan.names.rates (air_at plan n (2 * i) (air_number plan.grid ref)) (land_seen_at plan n i (surface_number plan.grid ref)) (element_area_at plan n ref 0) }
    ensures ice { (plan : PlanParts) (n i row k : ℕ) → IsColumn plan.grid.column → k < part_count plan.grid → let ref = on_ocean row in flux (fast_step plan n i) ref k
        ≡ element plan.names.rates (air_at plan n (2 * i) (air_number plan.grid ref)) (ice_seen_at plan n i (surface_number plan.grid ref) k) (element_area_at plan n ref k) }
    ensures sun { (plan : PlanParts) (n i c : ℕ) → sun_on (fast_step plan n i) c
        ≡ part_of (at plan.start.air_sun c) (at plan.names.rates.month (month_of plan.names (state_at plan n) - 1)) (pos 1_000) }
    ensures absorbed { (plan : PlanParts) (n i : ℕ) (ref : XRef) (k : ℕ) → absorbed (fast_step plan n i) ref k ≡ absorbed (fast_step plan n 0) ref k }
    ensures space { (plan : PlanParts) (n i c : ℕ) → to_space (fast_step plan n i) c ≡ part_of (air_at plan n (2 * i) c).heat plan.names.rates.ko (pos 1_048_576) }
    ensures heat { (plan : PlanParts) (n i c : ℕ) → heat_before_rain (fast_step plan n i) c
        ≡ (air_at plan n (2 * i) c).heat -ℤ over_all plan.grid (heat_down (fast_step plan n i)) (refs_of_air_cell plan.grid c)
        +ℤ (VAPOUR_HEAT *ℤ over_all plan.grid (water_up (fast_step plan n i)) (refs_of_air_cell plan.grid c)) -ℤ to_space (fast_step plan n i) c }
    ensures vapour { (plan : PlanParts) (n i c : ℕ) → vapour_before_rain (fast_step plan n i) c
        ≡ (air_at plan n (2 * i) c).vapour +ℤ over_all plan.grid (water_up (fast_step plan n i)) (refs_of_air_cell plan.grid c) }
    ensures rain_on { (plan : PlanParts) (n i : ℕ) (ref : XRef) (k : ℕ) → rain_on (fast_step plan n i) ref k
        ≡ share_at plan.grid (state_at plan n) (rain (fast_step plan n i) (air_number plan.grid ref)) ref k }
{}

/// The ocean adds the flight to it to its top layer, and then makes its steps: each column exchanges what the transport leaves in it, and
/// each face takes its next number.
pub fn sea_law()
    ensures flight { (plan : PlanParts) (n : ℕ) → ocean_at plan n 1 ≡ with_flight plan.grid.ocean (ocean_at plan n 0) (state_at plan n).to_ocean }
    ensures top { (plan : PlanParts) (n c : ℕ) → c < ocean_cells plan.grid
        → cell_in plan.grid.ocean (ocean_at plan n 1) 0 c ≡ joined (cell_in plan.grid.ocean (ocean_at plan n 0) 0 c) (to_ocean_at plan n c) }
    ensures below { (plan : PlanParts) (n layer c : ℕ) → cell_in plan.grid.ocean (ocean_at plan n 1) (layer + 1) c ≡ cell_in plan.grid.ocean (ocean_at plan n 0) (layer + 1) c }
    ensures faces { (plan : PlanParts) (n : ℕ) → (ocean_at plan n 1).faces ≡ (ocean_at plan n 0).faces }
    ensures step { (plan : PlanParts) (n i : ℕ) → ocean_at plan n (i + 2) ≡ stepped plan.grid.ocean (layers plan.grid) plan.names.rates (ocean_at plan n (i + 1)) }
    ensures cell { (plan : PlanParts) (n i layer c : ℕ) → layer < layers plan.grid → c < ocean_cells plan.grid
        → cell_in plan.grid.ocean (ocean_at plan n (i + 2)) layer c
        ≡ mixed_cell plan.names.rates.mix (layers plan.grid) (λ l. transported plan.grid.ocean (layers plan.grid) plan.names.rates (ocean_at plan n (i + 1)) l c) layer }
    ensures face { (plan : PlanParts) (n i layer c : ℕ) (side : Side) → layer < layers plan.grid
        → outward_in plan.grid.ocean (ocean_at plan n (i + 2)) layer c side
        ≡ outward plan.grid.ocean.mosaic (next_number plan.grid.ocean (layers plan.grid) plan.names.rates (ocean_at plan n (i + 1)) layer) c side }
{}

/// The air after its last round of a coupling step is that with which the next begins.
pub fn next_air()
    ensures { (plan : PlanParts) (n c : ℕ) → air_at plan n (rounds_of plan Atmos) c ≡ air_at plan (n + 1) 0 c }
{}

/// The last round of the land drains it.
pub fn next_land()
    ensures runoff { (plan : PlanParts) (n c : ℕ) → runoff_of plan.grid plan.names.rates (mid_at plan n plan.names.fast).whole c ≡ runoff plan.names.rates (land_at plan n plan.names.fast c) }
    ensures next { (plan : PlanParts) (n c : ℕ) → c < land_cells plan.grid → dried plan.names.rates (land_at plan n plan.names.fast c) ≡ land_at plan (n + 1) 0 c }
{}

/// The last round of the ice is the slow one, which uses up frazil and skin, and what a cell gives back flies to the ocean in the next
/// coupling step.
pub fn next_ice()
    ensures next { (plan : PlanParts) (n c : ℕ) → IsColumn plan.grid.column → c < ocean_cells plan.grid
        → without_flight (slowed_if_wet plan.names.rates (ice_at plan n (plan.names.fast + 1) c)) ≡ ice_at plan (n + 1) 0 c }
    ensures wet { (plan : PlanParts) (n c : ℕ) → IsColumn plan.grid.column → IsWet plan.grid.ocean c
        → slowed plan.names.rates (ice_at plan n (plan.names.fast + 1) c) ≡ ice_at plan (n + 1) 0 c }
    ensures back { (plan : PlanParts) (n c : ℕ) → c < ocean_cells plan.grid
        → returned_if_wet plan.names.rates (ice_at plan n (plan.names.fast + 1) c) (arrived plan.grid plan.names.rates (mid_at plan n plan.names.fast).whole c)
        ≡ to_ocean_at plan (n + 1) c }
    ensures flight { (plan : PlanParts) (n c : ℕ) → c < ocean_cells plan.grid → returned_at plan.grid plan.names.rates (mid_at plan n plan.names.fast) c ≡ to_ocean_at plan (n + 1) c }
{}

/// The last round of the ocean is the cut, and what a cell cuts off flies to the ice in the next coupling step.
pub fn next_sea()
    ensures next { (plan : PlanParts) (n : ℕ) → after_cut plan.grid.ocean (ocean_at plan n (plan.names.ocean_steps + 1)) ≡ ocean_at plan (n + 1) 0 }
    ensures top { (plan : PlanParts) (n c : ℕ) → c < ocean_cells plan.grid
        → uncut (cell_in plan.grid.ocean (ocean_at plan n (plan.names.ocean_steps + 1)) 0 c) ≡ cell_in plan.grid.ocean (ocean_at plan (n + 1) 0) 0 c }
    ensures below { (plan : PlanParts) (n layer c : ℕ)
        → cell_in plan.grid.ocean (ocean_at plan n (plan.names.ocean_steps + 1)) (layer + 1) c ≡ cell_in plan.grid.ocean (ocean_at plan (n + 1) 0) (layer + 1) c }
    ensures faces { (plan : PlanParts) (n : ℕ) → (ocean_at plan n (plan.names.ocean_steps + 1)).faces ≡ (ocean_at plan (n + 1) 0).faces }
    ensures flight { (plan : PlanParts) (n c : ℕ) → c < ocean_cells plan.grid
        → cut_at plan.grid.ocean (ocean_at plan n (plan.names.ocean_steps + 1)) c ≡ to_ice_at plan (n + 1) c }
{}
