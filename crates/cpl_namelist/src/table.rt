// The names of a namelist and what they may hold. `coupler_nml` and its names are known from FMS. All other names, and all
// ranges and defaults, are defined by this project.
ghost use Rattle.std.specs.Prelude.{◌≡◌, ◌<◌, ◌≤◌, length, IfSome, map, position, slice_index_or};
ghost use Rattle.cpl_namelist.specs.Table.{is_entry, name_in_group, no_row, row_at, TableAgrees};

use crate::group::{Group, is_same_group};
use crate::token::same_word;
use cpl_fixed::MOST_PIECES;

/// What the values of a name are.
#[derive(Clone, Copy)]
pub enum Holds {
    /// Integers.
    Numbers,
    /// The six integers of a date on the Gregorian calendar and a time of day.
    Moment,
    /// The text `gregorian`, case aside, which counts as 1.
    Calendar,
    /// `.true.`, which counts as 1, or `.false.`, which counts as 0.
    Logical,
}

/// What a name holds: of which kind, how many values, their range, and their default where it has one, which is the first
/// `count` of these places.
#[derive(Clone, Copy)]
pub struct Row {
    pub holds: Holds,
    pub count: usize,
    pub low: u32,
    pub high: u32,
    pub default: Option<[u32; 12]>,
}

/// A name of a group, with what it holds.
#[derive(Clone, Copy)]
pub struct Entry {
    pub group: Group,
    pub name: &'static [u8],
    pub row: Row,
}

// A name: group, spelling, kind, count, least, greatest, default.
macro_rules! entry {
    ($group:ident, $name:expr, $holds:ident, $count:expr, $low:expr, $high:expr, $default:expr) => {
        Entry {
            group: Group::$group,
            name: $name,
            row: Row {
                holds: Holds::$holds,
                count: $count,
                low: $low,
                high: $high,
                default: $default,
            },
        }
    };
}

// Most days, hours, minutes or seconds of a run.
const LONGEST: u32 = 1_000_000_000;
// Most seconds of a step: those of 31 days.
const LONGEST_STEP: u32 = 2_678_400;
// The greatest value of most rates: 2^20.
const MOST_RATE: u32 = 1 << 20;

/// All names. Each is known by its place here, as `places` calls it.
pub const TABLE: [Entry; 31] = [
    entry!(Coupler, b"current_date", Moment, 6, 0, 9_999, None),
    entry!(Coupler, b"calendar", Calendar, 1, 1, 1, None),
    entry!(Coupler, b"days", Numbers, 1, 0, LONGEST, Some([0; 12])),
    entry!(Coupler, b"hours", Numbers, 1, 0, LONGEST, Some([0; 12])),
    entry!(Coupler, b"minutes", Numbers, 1, 0, LONGEST, Some([0; 12])),
    entry!(Coupler, b"seconds", Numbers, 1, 0, LONGEST, Some([0; 12])),
    entry!(Coupler, b"dt_atmos", Numbers, 1, 1, LONGEST_STEP, None),
    entry!(Coupler, b"dt_cpld", Numbers, 1, 1, LONGEST_STEP, None),
    entry!(Coupler, b"concurrent", Logical, 1, 1, 1, Some([1; 12])),
    entry!(Coupler, b"use_lag_fluxes", Logical, 1, 1, 1, Some([1; 12])),
    entry!(
        Layout,
        b"atmos_layout",
        Numbers,
        2,
        1,
        MOST_PIECES,
        Some([1; 12])
    ),
    entry!(
        Layout,
        b"land_layout",
        Numbers,
        2,
        1,
        MOST_PIECES,
        Some([1; 12])
    ),
    entry!(
        Layout,
        b"ice_layout",
        Numbers,
        2,
        1,
        MOST_PIECES,
        Some([1; 12])
    ),
    entry!(
        Layout,
        b"ocean_layout",
        Numbers,
        2,
        1,
        MOST_PIECES,
        Some([1; 12])
    ),
    entry!(Air, b"ca", Numbers, 1, 1, MOST_RATE, Some([10; 12])),
    entry!(Air, b"kh", Numbers, 1, 0, MOST_RATE, Some([1_024; 12])),
    entry!(Air, b"ke", Numbers, 1, 0, MOST_RATE, Some([4_096; 12])),
    entry!(Air, b"hs", Numbers, 1, 0, MOST_RATE, Some([1_000; 12])),
    entry!(Air, b"ko", Numbers, 1, 0, 131_072, Some([1_024; 12])),
    entry!(Air, b"rc", Numbers, 1, 0, MOST_RATE, Some([1; 12])),
    entry!(Air, b"month", Numbers, 12, 0, 4_000, Some([1_000; 12])),
    entry!(Land, b"cl", Numbers, 1, 1, MOST_RATE, Some([10; 12])),
    entry!(Land, b"cap", Numbers, 1, 0, MOST_RATE, Some([10; 12])),
    entry!(Land, b"albedo", Numbers, 1, 0, 1_000, Some([200; 12])),
    entry!(Ice, b"h0", Numbers, 1, 1, MOST_RATE, Some([100; 12])),
    entry!(
        Ice,
        b"bounds",
        Numbers,
        4,
        1,
        MOST_RATE,
        Some([100, 200, 400, 800, 0, 0, 0, 0, 0, 0, 0, 0])
    ),
    entry!(Ice, b"albedo", Numbers, 1, 0, 1_000, Some([600; 12])),
    entry!(Ice, b"water_albedo", Numbers, 1, 0, 1_000, Some([100; 12])),
    entry!(Ocean, b"dt_ocean", Numbers, 1, 1, LONGEST_STEP, None),
    entry!(Ocean, b"slope", Numbers, 1, 0, 40, Some([8; 12])),
    entry!(Ocean, b"mix", Numbers, 1, 2, 40, Some([6; 12])),
];

// Whether this is the name in the group, case aside.
fn is_entry(entry: &Entry, group: Group, word: &[u8]) -> bool
    ensures { result ≡ is_entry group word.now entry.now.group entry.now.name.now }
{
    is_same_group(entry.group, group) && same_word(entry.name, word)
}

// The place of the first of these names that the group has.
fn place_in(table: &[Entry], group: Group, word: &[u8]) -> Option<usize>
    ensures value { result ≡ position (λ entry. is_entry group word.now entry.group entry.name.now) table.now }
    ensures within { IfSome result (λ place. place < length table.now) }
{
    table.iter().position(|entry| is_entry(entry, group, word))
}

// The place of this name in the group, case aside.
#[tactic(auto, unfolding(crate::specs::Table::name_in_group))]
pub fn name_in_group(group: Group, word: &[u8]) -> Option<usize>
    ensures value { result ≡ name_in_group group word.now }
    ensures within { IfSome result (λ place. place < 31) }
{
    place_in(&TABLE, group, word)
}

fn row_in(table: &[Entry], place: usize) -> Row
    requires { place < length table.now }
    ensures { result ≡ slice_index_or (map (λ entry. entry.row) table.now) place no_row }
{
    table[place].row
}

// What the name at this place holds.
pub fn row_at(place: usize) -> Row
    requires { place < 31 }
    ensures value { result ≡ row_at place }
    ensures small { result.count ≤ 12 }
{
    row_in(&TABLE, place)
}

/// A theorem, and no work: each name of the format stands at the place by which a run's numbers are taken from it.
pub fn table_law()
    ensures { TableAgrees }
{}
