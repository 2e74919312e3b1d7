// A copy of a state.
ghost use Rattle.std.specs.Prelude.{◌≡◌, IfOk};

use cpl_fixed::List;
use cpl_state::Whole;
use std::alloc::{AllocError, Global};

fn copy_of(alloc: Global, list: &List<i64>) -> Result<List<i64>, AllocError>
    ensures { IfOk result (λ copy. copy ≡ list.now) }
{
    Ok(List::from_vec(Vec::from_slice(alloc, list.as_slice())?))
}

// A state like another.
pub(crate) fn copy_whole(alloc: Global, whole: &Whole) -> Result<Whole, AllocError>
    ensures { IfOk result (λ copy. copy ≡ whole.now) }
{
    Ok(Whole {
        elapsed: whole.elapsed,
        air_heat: copy_of(alloc, &whole.air_heat)?,
        air_vapour: copy_of(alloc, &whole.air_vapour)?,
        air_sun: copy_of(alloc, &whole.air_sun)?,
        land_heat: copy_of(alloc, &whole.land_heat)?,
        land_water: copy_of(alloc, &whole.land_water)?,
        parts: copy_of(alloc, &whole.parts)?,
        ice: copy_of(alloc, &whole.ice)?,
        ice_heat: copy_of(alloc, &whole.ice_heat)?,
        water: copy_of(alloc, &whole.water)?,
        heat: copy_of(alloc, &whole.heat)?,
        salt: copy_of(alloc, &whole.salt)?,
        faces: copy_of(alloc, &whole.faces)?,
        to_ice: copy_of(alloc, &whole.to_ice)?,
        to_ocean: copy_of(alloc, &whole.to_ocean)?,
    })
}
