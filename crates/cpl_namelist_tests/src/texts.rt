// The text of the calendar's beginning, and what it says.
ghost use Rattle.std.specs.Prelude.{IfOk};
ghost use Rattle.cpl_namelist.specs.Civil.{IsStart};

use cpl_fixed::Rates;
use cpl_namelist::{Names, NamesError};
use std::test::Fail;

/// The names of a text.
pub fn read(text: &str) -> Result<Names, NamesError>
    ensures { IfOk result (λ names. IsStart names.start) }
{
    let bytes = text.as_bytes();
    if bytes.len() >= 4_294_967_295 {
        return Err(NamesError::Memory);
    }
    Names::read(bytes)
}

/// The rates where none is given.
const DEFAULTS: Rates = Rates {
    ca: 10,
    kh: 1024,
    ke: 4096,
    hs: 1000,
    ko: 1024,
    rc: 1,
    month: [1000; 12],
    cl: 10,
    cap: 10,
    land_albedo: 200,
    h0: 100,
    bounds: [100, 200, 400, 800],
    ice_albedo: 600,
    water_albedo: 100,
    slope: 8,
    mix: 6,
};

/// The rates of a text that gives every name.
const OTHERS: Rates = Rates {
    ca: 1,
    kh: 0,
    ke: 1048576,
    hs: 2,
    ko: 131072,
    rc: 0,
    month: [0, 4000, 7, 7, 7, 7, 7, 7, 7, 7, 7, 7],
    cl: 1048576,
    cap: 3,
    land_albedo: 1000,
    h0: 4,
    bounds: [1, 2, 3, 1048576],
    ice_albedo: 5,
    water_albedo: 6,
    slope: 40,
    mix: 2,
};

#[test]
fn what_is_not_given_is_by_default(rt: HostRuntime) -> Result<(), Fail> {
    let text =
        "&COUPLER_NML Current_Date = 2001 1 1 3*0 ! start\ncalendar=\"Gregorian\", hours=2, dt_atmos=1800, dt_cpld=3600, /\n&ocean_nml dt_ocean=3600 /";
    let names = read(text)?;
    // 3600 / 1800, 3600 / 3600 and 7200 / 3600
    assert_eq!(rt; names.fast, 2);
    assert_eq!(rt; names.ocean_steps, 1);
    assert_eq!(rt; names.steps, 2);
    assert_eq!(rt; names.dt, 3600);
    assert_eq!(rt; names.start, [2001, 1, 1, 0, 0, 0]);
    // all else by default
    assert_eq!(rt; names.layouts, [(1, 1); 4]);
    assert_eq!(rt; names.rates, DEFAULTS);
    Ok(())
}

#[test]
fn every_name_is_taken(rt: HostRuntime) -> Result<(), Fail> {
    let text = "&layout_nml atmos_layout=1 2, land_layout=3,4 ice_layout=5,6, ocean_layout=64 64/\
        &air_nml ca=1 kh=0 ke=1048576 hs=2 ko=131072 rc=0 month=0 4000 10*7/\
        &land_nml cl=1048576 cap=3 albedo=1000/ &ice_nml h0=4 bounds=1 2 3 1048576 albedo=5 water_albedo=6/\
        &ocean_nml slope=40 mix=2 dt_ocean=2/\
        &coupler_nml seconds=20 minutes=3 hours=2 days=1 dt_cpld=20 dt_atmos=1 calendar='GREGORIAN' use_lag_fluxes=.TRUE.\
        concurrent=.true. current_date=9999,12,31,23,59,59/";
    let names = read(text)?;
    assert_eq!(rt; names.layouts, [(1, 2), (3, 4), (5, 6), (64, 64)]);
    assert_eq!(rt; names.rates, OTHERS);
    assert_eq!(rt; names.start, [9999, 12, 31, 23, 59, 59]);
    // 86400 + 7200 + 180 + 20 = 93800 seconds
    assert_eq!(rt;
        [names.fast, names.ocean_steps, names.steps],
        [20, 10, 4690]
    );
    Ok(())
}
