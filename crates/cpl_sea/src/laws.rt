// What every step of the ocean keeps.
ghost use Rattle.std.specs.Prelude.{◌≡◌, ◌≤◌, ℕ};
ghost use Rattle.cpl_fixed.specs.Totals.{total_of};
ghost use Rattle.cpl_fixed.specs.declared.rates.Rates.{Rates};
ghost use Rattle.cpl_mosaic.specs.declared.mosaic.Mesh.{Mesh};
ghost use Rattle.cpl_state.specs.Transport.{Sea, stepped};
ghost use Rattle.cpl_sea.specs.Seas.{IsOcean, IsSea};

/// A step of the ocean moves water, heat and salt, and makes and loses none; no amount falls below 0, and the faces' numbers keep
/// their range and are 0 at walls.
pub fn sea_law()
    ensures water { (mesh : Mesh) (layers : ℕ) (rates : Rates) (sea : Sea) → IsOcean mesh → IsSea mesh layers sea → 2 ≤ rates.mix
        → total_of (stepped mesh layers rates sea).water ≡ total_of sea.water }
    ensures heat { (mesh : Mesh) (layers : ℕ) (rates : Rates) (sea : Sea) → IsOcean mesh → IsSea mesh layers sea → 2 ≤ rates.mix
        → total_of (stepped mesh layers rates sea).heat ≡ total_of sea.heat }
    ensures salt { (mesh : Mesh) (layers : ℕ) (rates : Rates) (sea : Sea) → IsOcean mesh → IsSea mesh layers sea → 2 ≤ rates.mix
        → total_of (stepped mesh layers rates sea).salt ≡ total_of sea.salt }
    ensures kept { (mesh : Mesh) (layers : ℕ) (rates : Rates) (sea : Sea) → IsOcean mesh → IsSea mesh layers sea → 2 ≤ rates.mix
        → IsSea mesh layers (stepped mesh layers rates sea) }
{}
