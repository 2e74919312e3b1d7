// What leaves the top layer at the end of a coupling step.
ghost use Rattle.std.specs.Prelude.{◌≡◌, ◌*◌, ◌≤◌, pos, ◌+ℤ◌};
ghost use Rattle.cpl_fixed.specs.Amounts.{IsAmount, amount};
ghost use Rattle.cpl_ice.specs.Cells.{IsFlight};
ghost use Rattle.cpl_ice.specs.declared.parts.Salty.{Salty};
ghost use Rattle.cpl_transport.specs.Cuts.{cut_of, frazil, frazil_of, skin_of, uncut, unfrozen};
ghost use Rattle.cpl_transport.specs.Salts.{IsSalty, without};

use cpl_fixed::{ICE_HEAT, MELT_HEAT, MOST_TOTAL, WATER_HEAT, quotient};
use cpl_ice::{Salty, ToIce};

// The water that freezes.
fn frazil(water: u64, heat: u64) -> u64
    requires water { water ≤ MOST_TOTAL }
    requires heat { heat ≤ MOST_TOTAL }
    ensures value { result ≡ frazil water heat }
    ensures half { 2 * result ≤ water }
    ensures filled { amount ICE_HEAT * result ≤ heat }
{
    let wanted = u128::from(WATER_HEAT as u64) * u128::from(water);
    let missing = wanted.saturating_sub(u128::from(heat));
    let frozen = quotient(missing, u128::from(MELT_HEAT as u64));
    frozen.min(u128::from((water / 2).min(heat / ICE_HEAT as u64))) as u64
}

// The layer without the frazil.
fn unfrozen(top: Salty, frazil_water: i64) -> Salty
    requires top { IsSalty top }
    requires frazil { frazil_water ≡ pos (frazil_of top) }
    ensures value { result ≡ unfrozen top }
    ensures salty { IsSalty result }
{
    Salty {
        water: top.water - frazil_water,
        heat: top.heat - ICE_HEAT * frazil_water,
        salt: top.salt,
    }
}

// A quarter.
fn skin(it: Salty) -> Salty
    requires { IsSalty it }
    ensures { result ≡ skin_of it }
{
    Salty {
        water: it.water / 4,
        heat: it.heat / 4,
        salt: it.salt / 4,
    }
}

// What the skin leaves.
fn unskinned(it: Salty, skin: Salty) -> Salty
    requires it { IsSalty it }
    requires skin { skin ≡ skin_of it }
    ensures { result ≡ without it (skin_of it) }
{
    Salty {
        water: it.water - skin.water,
        heat: it.heat - skin.heat,
        salt: it.salt - skin.salt,
    }
}

/// What leaves the top layer for the ice at the end of a coupling step: frazil, the water that freezes where its heat is below
/// that of freezing water, with the heat of ice, and then the skin, a quarter of the water, heat and salt that are left. The cut
/// is defined by this project.
pub fn cut(top: &mut Salty) -> ToIce
    requires { IsSalty top.old }
    ensures value { result ≡ cut_of top.old }
    ensures left { top.new ≡ uncut top.old }
{
    let frazil_water = frazil(top.water as u64, top.heat as u64) as i64;
    let rest = unfrozen(*top, frazil_water);
    let skin = skin(rest);
    *top = unskinned(rest, skin);
    ToIce {
        frazil_water,
        frazil_heat: ICE_HEAT * frazil_water,
        skin,
    }
}

/// The cut takes what it leaves, and leaves no amount below 0.
pub fn cut_law()
    ensures water { (top : Salty) → top.water ≡ (uncut top).water +ℤ (cut_of top).frazil_water +ℤ (cut_of top).skin.water }
    ensures heat { (top : Salty) → top.heat ≡ (uncut top).heat +ℤ (cut_of top).frazil_heat +ℤ (cut_of top).skin.heat }
    ensures salt { (top : Salty) → top.salt ≡ (uncut top).salt +ℤ (cut_of top).skin.salt }
    ensures flight { (top : Salty) → IsSalty top → IsFlight (cut_of top) }
    ensures top { (top : Salty) → IsSalty top → IsSalty (uncut top) }
{}
