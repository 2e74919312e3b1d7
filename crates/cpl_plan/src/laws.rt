// Laws of a plan's wiring and of what its edges carry.
ghost use Rattle.std.specs.Prelude.{◌≡◌, ℕ, ◌+◌, ◌*◌, ◌<◌};
ghost use Rattle.cpl_core.specs.Wires.{IsWired};
ghost use Rattle.cpl_stocks.specs.Partials.{HasShape, words_of};
ghost use Rattle.cpl_wires.specs.declared.parts.Purpose.TheVariants.{AirHalo, LandToAir, IceToAir, AirToLand, AirToIce, LandToIce, IceToOcean, OceanToIce, OceanHalo, Sums};
ghost use Rattle.cpl_wires.specs.Settings.{IsSetting, piece_count};
ghost use Rattle.cpl_wires.specs.Pairs.{land_rows_between, ice_rows_between, outlets_between, cells_between};
ghost use Rattle.cpl_wires.specs.Wirings.{HasLengths};
ghost use Rattle.cpl_rounds.specs.Rounds.{PlanParts};
ghost use Rattle.cpl_rounds.specs.Values.{air_halo, air_to_ice, air_to_land, ice_to_air, ice_to_ocean, land_to_air, land_to_ice, ocean_halo, ocean_to_ice};
ghost use Rattle.cpl_plan.specs.Plans.{IsPlan, setting_of};
ghost use Rattle.cpl_plan.specs.PieceSums.{all_sums, part_sums, sums_below};
ghost use Rattle.cpl_plan.specs.Values.{value, wires_of_plan, air_halo_cells, ocean_halo_cells, ocean_halo_sides};

/// What the uses of an edge carry has as many numbers as the edge's length says, and the sums of a piece are partial sums. Defined by this
/// project.
pub fn value_law()
    ensures lengths { (plan : PlanParts) → HasLengths (setting_of plan) (value plan) }
    ensures sums { (plan : PlanParts) (piece n : ℕ) → HasShape (part_sums plan piece n) }
{}

/// What each use of an edge carries, by its coupling step and its fast step or ocean step there: exchange cells, outlets and cells are those
/// that both pieces have, in the order of the file or in whole order; halos carry cells and sides at the places of their strips, the air's
/// before the diffusion of the fast step; sums are those of all steps before. Defined by this project.
pub fn carries_law()
    ensures air_halo { (plan : PlanParts) (from to n i : ℕ) → i < plan.names.fast
        → value plan (record { purpose = AirHalo; from = from; to = to }) (n * plan.names.fast + i) ≡ air_halo plan n i (air_halo_cells (setting_of plan) from to) }
    ensures land_to_air { (plan : PlanParts) (land air n i : ℕ) → i < plan.names.fast
        → value plan (record { purpose = LandToAir; from = land; to = air }) (n * plan.names.fast + i) ≡ land_to_air plan n i (land_rows_between (setting_of plan) air land) }
    ensures ice_to_air { (plan : PlanParts) (ice air n i : ℕ) → i < plan.names.fast
        → value plan (record { purpose = IceToAir; from = ice; to = air }) (n * plan.names.fast + i) ≡ ice_to_air plan n i (ice_rows_between (setting_of plan) air ice) }
    ensures air_to_land { (plan : PlanParts) (air land n i : ℕ) → i < plan.names.fast
        → value plan (record { purpose = AirToLand; from = air; to = land }) (n * plan.names.fast + i) ≡ air_to_land plan n i (land_rows_between (setting_of plan) air land) }
    ensures air_to_ice { (plan : PlanParts) (air ice n i : ℕ) → i < plan.names.fast
        → value plan (record { purpose = AirToIce; from = air; to = ice }) (n * plan.names.fast + i) ≡ air_to_ice plan n i (ice_rows_between (setting_of plan) air ice) }
    ensures land_to_ice { (plan : PlanParts) (land ice n : ℕ)
        → value plan (record { purpose = LandToIce; from = land; to = ice }) n ≡ land_to_ice plan n (outlets_between (setting_of plan) land ice) }
    ensures ice_to_ocean { (plan : PlanParts) (ice ocean n : ℕ)
        → value plan (record { purpose = IceToOcean; from = ice; to = ocean }) n ≡ ice_to_ocean plan n (cells_between (setting_of plan) ice ocean) }
    ensures ocean_to_ice { (plan : PlanParts) (ocean ice n : ℕ)
        → value plan (record { purpose = OceanToIce; from = ocean; to = ice }) n ≡ ocean_to_ice plan n (cells_between (setting_of plan) ice ocean) }
    ensures ocean_halo { (plan : PlanParts) (from to n i : ℕ) → i < plan.names.ocean_steps
        → value plan (record { purpose = OceanHalo; from = from; to = to }) (n * plan.names.ocean_steps + i)
        ≡ ocean_halo plan n i (ocean_halo_cells (setting_of plan) from to) (ocean_halo_sides (setting_of plan) from to) }
    ensures sums { (plan : PlanParts) (from to n : ℕ) → value plan (record { purpose = Sums; from = from; to = to }) n ≡ words_of (part_sums plan from n) }
{}

/// The sums of all pieces together are those over all cells of all components, so a sum that is left out, doubled or of another step shows.
/// Defined by this project.
pub fn sums_law()
    ensures { (plan : PlanParts) (n : ℕ) → IsPlan plan → sums_below plan n (piece_count (setting_of plan)) ≡ all_sums plan n }
{}

/// The edges and scripts of a lawful plan, with their values, are a wiring, whatever its layouts and its numbers of steps. Defined by this
/// project.
pub fn wiring_law()
    ensures setting { (plan : PlanParts) → IsPlan plan → IsSetting (setting_of plan) }
    ensures wired { (plan : PlanParts) → IsPlan plan → IsWired (wires_of_plan plan) }
{}
