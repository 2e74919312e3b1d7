// The cells of the land after a fast step.
ghost use Rattle.std.specs.Prelude.{◌≡◌, ◌*◌, ◌<◌, ◌^◌, length};
ghost use Rattle.cpl_fixed.specs.Amounts.{at};
ghost use Rattle.cpl_mosaic.specs.Contacts.{cells_of};
ghost use Rattle.cpl_xgrid.specs.declared.parts.Surface.TheVariants.{Land};
ghost use Rattle.cpl_fast.specs.Surfaces.{AreRowsOf, CanGainLand, CanTakeLand, HasTakenLand, land_at, land_sums, taken_to};
ghost use Rattle.cpl_fast.specs.Sums.{AreSmall, IsSmallTaken};

use crate::flows::Flow;
use crate::sums::{After, Sums, Taken, gain, part_sums, taken_by};
use cpl_xgrid::{Surface, XGrid};

// The sums of the flows of cell n of the land.
fn land_sums(xgrid: &XGrid, flows: &[Flow], n: u32) -> Sums
    requires cell { n < cells_of xgrid.now.land }
    requires rows { AreRowsOf Land xgrid.now flows.now 1 n }
    ensures value { result ≡ land_sums xgrid.now flows.now n }
    ensures small { AreSmall (2 ^ 30) result }
{
    part_sums(
        xgrid.cells_of_land(n),
        flows,
        xgrid.rows(Surface::Land).len(),
        0,
    )
}

// Cell n of the land after the step.
fn land_cell(xgrid: &XGrid, flows: &[Flow], n: u32, heat: i64, water: i64) -> After
    requires cell { n < cells_of xgrid.now.land }
    requires can { CanGainLand xgrid.now flows.now heat water n }
    ensures value { result ≡ land_at xgrid.now flows.now heat water n }
    ensures small { IsSmallTaken (3 * 2 ^ 42) result.taken }
{
    let sums = land_sums(xgrid, flows, n);
    gain(heat, water, taken_by(&sums), sums.sun)
}

// The land takes what flowed: the heat and the water of all cells. The result is what they took from the air.
pub(crate) fn land_lists(
    xgrid: &XGrid,
    flows: &[Flow],
    heat: &mut [i64],
    water: &mut [i64],
) -> Taken
    requires { CanTakeLand xgrid.now flows.now heat.old water.old }
    ensures land { HasTakenLand xgrid.now flows.now heat.old water.old heat.new water.new }
    ensures taken { result ≡ taken_to (length heat.old) (λ n. (land_at xgrid.now flows.now (at heat.old n) (at water.old n) n).taken) }
{
    let mut all = Taken::none();
    for n in 0..heat.len() {
        let after = land_cell(xgrid, flows, n as u32, heat[n], water[n]);
        heat[n] = after.heat;
        water[n] = after.water;
        all.add(&after.taken);
    }
    all
}
