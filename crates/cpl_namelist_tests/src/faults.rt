// Each fault, and which of two comes.
use crate::texts::read;
use cpl_fixed::{Component, LayoutError};
use cpl_namelist::{NamesError, Required, StepFault};
use std::alloc::Global;
use std::process::Abort;

fn all_faults(rt: &impl Abort, cases: &[(&str, NamesError)]) {
    for (text, fault) in cases {
        assert!(rt; read(text).err() == Some(*fault), "in {text}");
    }
}

fn all_syntax(rt: &impl Abort, cases: &[(&str, u32)]) {
    for (text, line) in cases {
        assert!(rt;
            read(text).err() == Some(NamesError::Syntax(*line)),
            "in {text}"
        );
    }
}

fn all_missing(rt: &impl Abort, cases: &[(&str, Required)]) {
    for (text, name) in cases {
        assert!(rt;
            read(text).err() == Some(NamesError::Missing(*name)),
            "in {text}"
        );
    }
}

fn all_steps(rt: &impl Abort, cases: &[(&str, StepFault)]) {
    for (text, step) in cases {
        assert!(rt;
            read(text).err() == Some(NamesError::Step(*step)),
            "in {text}"
        );
    }
}

/// Texts whose tokens are out of order, with the line.
const ORDER: [(&'static str, u32); 29] = [
    // `#` begins no token
    ("#", 1),
    // an assignment outside a group
    ("\n\nca = 1", 3),
    // the group doesn't end: the last line, one more than the line feeds
    ("&air_nml\n", 2),
    ("&air_nml ! a comment without a line feed", 1),
    ("&air_nml ca\n=\n", 3),
    // `&` with a blank after it, and `&` alone
    ("& air_nml /", 1),
    ("\n&", 2),
    // the name has no value, no `=`, two
    ("&air_nml\nca /", 2),
    ("&air_nml\nca = /", 2),
    ("&air_nml ca\n= = 1 /", 2),
    // a comma after `=`, a second comma, a comma after the name
    ("&air_nml ca =\n, 1 /", 2),
    ("&air_nml ca = 1,\n, 2 /", 2),
    ("&air_nml ca , 1 /", 1),
    // a comma after the heading
    ("&air_nml\n, ca = 1 /", 2),
    // a quote that never closes, on its line and over the end of it
    ("&air_nml\nca = 'abc /", 2),
    ("&air_nml ca =\n\"abc\n\" /", 2),
    // `3*` with a blank after it, `+3*2`, `2*.true.`, `1*2*3`: the `*` begins no token
    ("&air_nml month = 3* 5 /", 1),
    ("&air_nml month =\n+3*2 /", 2),
    ("&air_nml month = 2*.true. /", 1),
    ("&air_nml month = 1*2*3 /", 1),
    // signs without digits, a logical spelled otherwise
    ("&air_nml ca = - 1 /", 1),
    ("&air_nml ca = .t. /", 1),
    // `&end` is a group token inside a group
    ("&air_nml ca = 1\n&end", 2),
    // two groups, of which the first isn't closed
    ("&air_nml\n&land_nml /", 2),
    // `/` and `=` outside
    ("/", 1),
    ("&air_nml / =", 1),
    // a form feed separates nothing
    ("&air_nml\u{c}/", 1),
    // `T` for a logical is a name without `=`
    ("&coupler_nml concurrent = .true. T /", 1),
    // a fault of the order comes before any other
    ("&nobody x = 1 /\n#", 2),
];

#[test]
fn tokens_out_of_order_are_refused(rt: HostRuntime) {
    all_syntax(&rt, &ORDER);
}

/// Texts with a wrong heading or assignment.
const HEADINGS: [(&'static str, NamesError); 14] = [
    ("&nobody /", NamesError::UnknownGroup(1)),
    ("\n&air_nm /", NamesError::UnknownGroup(2)),
    ("&air_nml / &AIR_NML /", NamesError::Twice(1)),
    ("&air_nml /\n&land_nml /\n&air_nml /", NamesError::Twice(3)),
    // a name of another group
    ("&air_nml\ncl = 1 /", NamesError::UnknownName(2)),
    // the unknown name comes even where it stands twice, and before its values are looked at
    ("&air_nml\nxx = 1\nxx = 2 /", NamesError::UnknownName(2)),
    ("&air_nml xx = 'a' /", NamesError::UnknownName(1)),
    ("&air_nml ca = 1\nCA = 2 /", NamesError::Twice(2)),
    // twice comes before wrong values
    ("&air_nml ca = 1\nca = 0 /", NamesError::Twice(2)),
    // the line is the name's, not the value's
    ("&air_nml\nca =\n0 /", NamesError::Value(2)),
    // the first fault decides
    ("&air_nml ca = 0\nxx = 1 /", NamesError::Value(1)),
    (
        "&air_nml xx = 1 ca = 0 /\n&nobody /",
        NamesError::UnknownName(1),
    ),
    // two groups have a name `albedo`
    (
        "&land_nml albedo = 1 / &ice_nml albedo = 1001 /",
        NamesError::Value(1),
    ),
    // headings and names come before what is missing
    ("&nobody /", NamesError::UnknownGroup(1)),
];

#[test]
fn the_first_wrong_heading_or_name_decides(rt: HostRuntime) {
    all_faults(&rt, &HEADINGS);
}

/// Texts that lack a name.
const MISSING: [(&'static str, Required); 8] = [
    ("", Required::CurrentDate),
    ("! nothing", Required::CurrentDate),
    ("&ocean_nml dt_ocean = 1 /", Required::CurrentDate),
    (
        "&coupler_nml current_date = 1 1 1 3*0 /",
        Required::Calendar,
    ),
    (
        "&coupler_nml current_date = 1 1 1 3*0 calendar = 'gregorian' /",
        Required::DtAtmos,
    ),
    (
        "&coupler_nml current_date = 1 1 1 3*0 calendar = 'gregorian' dt_atmos = 1 /",
        Required::DtCpld,
    ),
    (
        "&coupler_nml current_date = 1 1 1 3*0 calendar = 'gregorian' dt_atmos = 1 dt_cpld = 1 /",
        Required::DtOcean,
    ),
    // dt_cpld is given, dt_atmos isn't
    (
        "&coupler_nml dt_cpld = 1 calendar = 'gregorian' current_date = 1 1 1 3*0 /",
        Required::DtAtmos,
    ),
];

#[test]
fn the_first_missing_name_decides(rt: HostRuntime) {
    all_missing(&rt, &MISSING);
}

/// Texts whose steps break a rule.
const STEPS: [(&'static str, StepFault); 8] = [
    // 3600 is no multiple of 1700
    (
        "&coupler_nml current_date=2001 1 1 3*0 calendar='gregorian' dt_atmos=1700 dt_cpld=3600 / &ocean_nml dt_ocean=3600 /",
        StepFault::Atmos,
    ),
    // of 7: neither, but the air comes first
    (
        "&coupler_nml current_date=2001 1 1 3*0 calendar='gregorian' dt_atmos=7 dt_cpld=3600 / &ocean_nml dt_ocean=7 /",
        StepFault::Atmos,
    ),
    (
        "&coupler_nml current_date=2001 1 1 3*0 calendar='gregorian' dt_atmos=3600 dt_cpld=3600 seconds=1 / &ocean_nml dt_ocean=7 /",
        StepFault::Ocean,
    ),
    // 3601 seconds; 4000 steps of the air are too many, but the run comes first
    (
        "&coupler_nml current_date=2001 1 1 3*0 calendar='gregorian' dt_atmos=1 dt_cpld=4000 seconds=4001 / &ocean_nml dt_ocean=1 /",
        StepFault::Run,
    ),
    // 1001 and 101 steps, and 1001 with 101
    (
        "&coupler_nml current_date=2001 1 1 3*0 calendar='gregorian' dt_atmos=1 dt_cpld=1001 / &ocean_nml dt_ocean=1 /",
        StepFault::FastCount,
    ),
    (
        "&coupler_nml current_date=2001 1 1 3*0 calendar='gregorian' dt_atmos=1 dt_cpld=101 / &ocean_nml dt_ocean=1 /",
        StepFault::OceanCount,
    ),
    // 10001 coupling steps of a second
    (
        "&coupler_nml current_date=2001 1 1 3*0 calendar='gregorian' dt_atmos=1 dt_cpld=1 seconds=10001 / &ocean_nml dt_ocean=1 /",
        StepFault::Count,
    ),
    (
        "&coupler_nml current_date=2001 1 1 3*0 calendar='gregorian' dt_atmos=1 dt_cpld=101 seconds=1010101 / &ocean_nml dt_ocean=1 /",
        StepFault::OceanCount,
    ),
];

#[test]
fn the_first_broken_step_decides(rt: HostRuntime) {
    all_steps(&rt, &STEPS);
}

fn all_printed(rt: &impl Abort, alloc: Global, cases: &[(NamesError, &str)]) {
    for (fault, want) in cases {
        match format!(in alloc; "{fault}") {
            Ok(text) => assert!(rt; text.as_str() == *want, "{want}"),
            Err(_) => panic!(rt; "out of memory"),
        }
    }
}

/// Faults with their texts.
const PRINTED: [(NamesError, &'static str); 8] = [
    (NamesError::Syntax(7), "Syntax 7"),
    (NamesError::Missing(Required::DtAtmos), "Missing dt_atmos"),
    (
        NamesError::Missing(Required::CurrentDate),
        "Missing current_date",
    ),
    (NamesError::Step(StepFault::FastCount), "Step fastcount"),
    (NamesError::Step(StepFault::OceanCount), "Step oceancount"),
    (
        NamesError::Layout(Component::Ocean, LayoutError::TooFine(0)),
        "Layout ocean TooFine 0",
    ),
    (NamesError::Date(-3), "Date -3"),
    (NamesError::Value(2), "Value 2"),
];

#[test]
fn faults_have_texts(rt: HostRuntime) {
    all_printed(&rt, rt.alloc(), &PRINTED);
}
