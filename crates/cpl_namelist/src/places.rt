// The places of the names among all names.
pub const CURRENT_DATE: usize = 0;

pub const CALENDAR: usize = 1;

pub const DAYS: usize = 2;

pub const HOURS: usize = 3;

pub const MINUTES: usize = 4;

pub const SECONDS: usize = 5;

pub const DT_ATMOS: usize = 6;

pub const DT_CPLD: usize = 7;

pub const CONCURRENT: usize = 8;

pub const USE_LAG_FLUXES: usize = 9;

pub const ATMOS_LAYOUT: usize = 10;

pub const LAND_LAYOUT: usize = 11;

pub const ICE_LAYOUT: usize = 12;

pub const OCEAN_LAYOUT: usize = 13;

pub const CA: usize = 14;

pub const KH: usize = 15;

pub const KE: usize = 16;

pub const HS: usize = 17;

pub const KO: usize = 18;

pub const RC: usize = 19;

pub const MONTH: usize = 20;

pub const CL: usize = 21;

pub const CAP: usize = 22;

pub const LAND_ALBEDO: usize = 23;

pub const H0: usize = 24;

pub const BOUNDS: usize = 25;

pub const ICE_ALBEDO: usize = 26;

pub const WATER_ALBEDO: usize = 27;

pub const DT_OCEAN: usize = 28;

pub const SLOPE: usize = 29;

pub const MIX: usize = 30;
