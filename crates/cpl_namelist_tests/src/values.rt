// Values: their number, kind and range.
use crate::texts::read;
use cpl_namelist::{NamesError, Required};
use std::process::Abort;

/// Whether a text's values are all right, so that the fault is only what is missing.
fn takes(text: &str) -> bool {
    read(text).err() == Some(NamesError::Missing(Required::CurrentDate))
        || read(text).err() == Some(NamesError::Missing(Required::Calendar))
}

fn all_taken(rt: &impl Abort, texts: &[&str]) {
    for text in texts {
        assert!(rt; takes(text), "in {text}");
    }
}

fn all_refused(rt: &impl Abort, texts: &[&str]) {
    for text in texts {
        assert!(rt; read(text).err() == Some(NamesError::Value(1)), "in {text}");
    }
}

/// Texts whose values are all right.
const TAKEN: [&'static str; 22] = [
    // the ends of a range
    "&air_nml ca=1/",
    "&air_nml ca=1048576/",
    // signs, leading zeros, repeats of one, and a sign inside a repeat
    "&air_nml kh=-0/",
    "&air_nml ca=+5/",
    "&air_nml ca=0000000000000000000000000000000000001/",
    "&air_nml ca=1*7/",
    "&air_nml month=012*+3/",
    "&air_nml month=6*1 6*2/",
    "&air_nml month=1,2,3,4,5,6,7,8,9,10,11,12,/",
    // no separators, a word directly after a number, values over lines, comments between
    "&air_nml ca=3600kh=1/",
    "&air_nml month=1+2+3+4+5+6+7+8+9+10+11+12/",
    "&air_nml month =\n1 2 3\n, 4 5 6 ! half a year\n7 8 9 10 11\n12 /",
    "&air_nml\tca\r\n=\t1\r/",
    "&air_nml/&land_nml/",
    "&air_nml ca=1!2\n/",
    // texts and logicals without regard to case, both marks
    "&coupler_nml calendar='gReGorian'/",
    "&coupler_nml calendar=\"GREGORIAN\"/",
    "&coupler_nml concurrent=.TrUe. use_lag_fluxes=.true./",
    // leap days
    "&coupler_nml current_date=2000 2 29 3*0/",
    "&coupler_nml current_date=2004 2 29 23 59 59/",
    "&coupler_nml current_date=1 1 1 0 0 0/",
    "&coupler_nml current_date=9999 12 31 23 59 59/",
];

/// Texts with a wrong value on line 1.
const REFUSED: [&'static str; 44] = [
    // just outside a range
    "&air_nml ca=0/",
    "&air_nml ca=1048577/",
    "&air_nml kh=-1/",
    "&air_nml month=11*0 4001/",
    // past 32 and 64 bits: 2^32 + 1, 2^64 + 1
    "&air_nml ca=4294967297/",
    "&air_nml ca=18446744073709551617/",
    "&air_nml ca=-18446744073709551617/",
    // too few and too many
    "&air_nml month=11*1/",
    "&air_nml month=13*1/",
    "&air_nml month=6*1 7*2/",
    "&air_nml ca=1 2/",
    "&air_nml ca=2*1/",
    "&ice_nml bounds=1 2 3/",
    "&layout_nml ice_layout=1/",
    "&coupler_nml current_date=2001 1 1 0 0/",
    // repeats of 0, above 64, and far above; 64 is allowed but too many here
    "&air_nml ca=0*1 1/",
    "&air_nml month=65*1/",
    "&air_nml ca=1 65*1/",
    "&air_nml month=99999999999999999999*1/",
    "&air_nml month=64*1/",
    // kinds
    "&air_nml ca='1'/",
    "&air_nml ca=.true./",
    "&coupler_nml calendar=1/",
    "&coupler_nml calendar='julian'/",
    "&coupler_nml calendar=' gregorian'/",
    "&coupler_nml calendar=''/",
    "&coupler_nml calendar='gre''gorian'/",
    "&coupler_nml calendar='gregorian' 'gregorian'/",
    "&coupler_nml concurrent=.false./",
    "&coupler_nml concurrent=1/",
    "&coupler_nml concurrent=.true. .true./",
    // dates: no 29 February in 1900 and 2100, no month 13 or 0, no day 0 or 32, no hour 24, no minute or second 60,
    // no year 0 or 10000
    "&coupler_nml current_date=1900 2 29 3*0/",
    "&coupler_nml current_date=2100 2 29 3*0/",
    "&coupler_nml current_date=2001 2 29 3*0/",
    "&coupler_nml current_date=2001 13 1 3*0/",
    "&coupler_nml current_date=2001 0 1 3*0/",
    "&coupler_nml current_date=2001 1 0 3*0/",
    "&coupler_nml current_date=2001 1 32 3*0/",
    "&coupler_nml current_date=2001 4 31 3*0/",
    "&coupler_nml current_date=2001 1 1 24 0 0/",
    "&coupler_nml current_date=2001 1 1 0 60 0/",
    "&coupler_nml current_date=2001 1 1 0 0 60/",
    "&coupler_nml current_date=0 1 1 3*0/",
    "&coupler_nml current_date=10000 1 1 3*0/",
];

#[test]
fn right_values_are_taken(rt: HostRuntime) {
    all_taken(&rt, &TAKEN);
}

#[test]
fn wrong_values_are_refused(rt: HostRuntime) {
    all_refused(&rt, &REFUSED);
}
