// What a step does with all elements of one list, land or ocean. The contracts here speak of the step, those below of rows.
ghost use Rattle.std.specs.Prelude.{◌≡◌, ◌*◌, ◌^◌, length};
ghost use Rattle.cpl_state.specs.FastLaws.{CanStep};
ghost use Rattle.cpl_state.specs.FastStep.{for_each, rain, rain_on};
ghost use Rattle.cpl_state.specs.States.{air_cells};
ghost use Rattle.cpl_fast.specs.Filled.{AreElementAreas, AreSkies, AreTables};
ghost use Rattle.cpl_fast.specs.Rooms.{ArePartAreas, HasTables, HaveSuns};
ghost use Rattle.cpl_fast.specs.Stages.{AreFlows, IsLawful, dry, given, step_of, sums_of};
ghost use Rattle.cpl_fast.specs.Sums.{AreClear, AreSmall, AreStill};

use crate::flows::{Flow, Sky, Tables, list_flows};
use crate::part_lists::surface_parts;
use crate::rain::list_rain;
use crate::stages::{View, step_law};
use crate::sums::{Sums, Taken, taken_by};
use crate::suns::list_suns;
use cpl_xgrid::Surface;

// Sets the sun that the elements absorb, where the areas of the state stand in the tables and nothing flows yet.
pub(crate) fn surface_suns(view: &View, list: Surface, tables: &Tables, flows: &mut [Flow])
    requires can { CanStep (step_of view.now) }
    requires tables { HasTables view.now.grid.now list tables.now }
    requires elements { AreElementAreas view.now.grid.now view.now.mid.now.whole list tables.now.areas.items }
    requires flows { length flows.old ≡ length tables.now.links.items * tables.now.width }
    requires still { AreStill tables.now flows.old }
    ensures suns { HaveSuns (step_of view.now) list flows.new }
    ensures clear { AreClear tables.now flows.new }
{
    step_law(view);
    let strength = view.rates.month[view.month as usize - 1];
    let (sun, area) = (
        view.mid.whole.air_sun.as_slice(),
        view.grid.air.area.as_slice(),
    );
    list_suns(view.rates, list, strength, sun, area, tables, flows);
}

// What flows before it rains, where `area` has the areas of the surface's parts. The sun that the elements absorb stands. The result has
// the sums over all elements.
pub(crate) fn surface_flows(
    view: &View,
    list: Surface,
    skies: &[Sky],
    tables: &Tables,
    area: &[i64],
    flows: &mut [Flow],
) -> Sums
    requires lawful { IsLawful (step_of view.now) }
    requires tables { AreTables (step_of view.now) list tables.now }
    requires skies { AreSkies (step_of view.now) skies.now }
    requires areas { ArePartAreas view.now.grid.now view.now.mid.now.whole list area.now }
    requires flows { length flows.old ≡ length tables.now.links.items * tables.now.width }
    requires clear { AreClear tables.now flows.old }
    requires suns { HaveSuns (step_of view.now) list flows.old }
    ensures flows { AreFlows (step_of view.now) dry list flows.new }
    ensures sums { result ≡ sums_of (step_of view.now) dry list }
    ensures small { AreSmall (2 ^ 30) result }
{
    let parts = surface_parts(view, list, area);
    list_flows(view.rates, skies, tables, &parts, flows)
}

// Rain on the elements, through which so much flowed before. The result is what the cells of the air gave to them.
pub(crate) fn surface_rain(
    view: &View,
    list: Surface,
    skies: &[Sky],
    rains: &[i64],
    tables: &Tables,
    flows: &mut [Flow],
    flown: Sums,
) -> Taken
    requires lawful { IsLawful (step_of view.now) }
    requires tables { AreTables (step_of view.now) list tables.now }
    requires skies { AreSkies (step_of view.now) skies.now }
    requires rains { rains.now ≡ for_each (air_cells view.now.grid.now) (rain (step_of view.now)) }
    requires flows { AreFlows (step_of view.now) dry list flows.old }
    requires flown { flown ≡ sums_of (step_of view.now) dry list }
    requires small { AreSmall (2 ^ 30) flown }
    ensures flows { AreFlows (step_of view.now) (rain_on (step_of view.now)) list flows.new }
    ensures given { result ≡ given (step_of view.now) list }
{
    // The contract alone speaks of these.
    let (_view, _list) = (view, list);
    let mut sums = flown;
    sums.rain = list_rain(skies, rains, tables, flows);
    taken_by(&sums)
}
