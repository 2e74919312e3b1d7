// Made namelists.
ghost use Rattle.std.specs.Prelude.{◌≡◌, ◌≤◌, IfOk};
ghost use Rattle.cpl_fixed.specs.declared.limits.TheConstants.{MOST_STEPS};
ghost use Rattle.cpl_make.specs.Texts.{names_text};

use itoa::Buffer;
use std::alloc::{AllocError, Global};

// The text of a run of this many coupling steps of an hour.
#[tactic(auto, unfolding(crate::specs::Texts::names_text))]
pub(crate) fn names_text(alloc: Global, steps: u32) -> Result<Vec<u8>, AllocError>
    requires { steps ≤ MOST_STEPS }
    ensures { IfOk result (λ text. text.items ≡ names_text steps) }
{
    let mut text = Vec::new(alloc);
    text.extend_from_slice(b"&coupler_nml\n current_date = 2001,1,1,0,0,0\n")?;
    text.extend_from_slice(b" calendar = 'gregorian'\n seconds = ")?;
    let mut buffer = Buffer::new();
    text.extend_from_slice(buffer.format(3_600 * steps).as_bytes())?;
    text.extend_from_slice(b"\n dt_atmos = 1800\n dt_cpld = 3600\n/\n")?;
    text.extend_from_slice(b"&ocean_nml\n dt_ocean = 1800\n/\n")?;
    Ok(text)
}
