// The limits of what the coupler takes, and the scale of its heat. All are defined by this project.
ghost use Rattle.cpl_fixed.specs.Limits.{AreLimits, AreScales};

/// Bytes of a grid's file: 64 MiB.
pub const MOST_GRID_BYTES: u64 = 1 << 26;
/// Bytes of a namelist's file: 64 KiB.
pub const MOST_NAMES_BYTES: u64 = 1 << 16;
/// Bytes of a restart's file: 256 MiB.
pub const MOST_START_BYTES: u64 = 1 << 28;
/// Bytes of a file of boxes, from which exchange grids are made: 4 MiB.
pub const MOST_BOXES_BYTES: u64 = 1 << 22;
/// Bytes of a field's file: 256 MiB.
pub const MOST_FIELD_BYTES: u64 = 1 << 28;
/// Bytes of a list of pieces or of a list of series: 64 KiB each.
pub const MOST_LIST_BYTES: u64 = 1 << 16;

/// Tiles of a mosaic, 1 at least.
pub const MOST_TILES: u32 = 16;
/// Cells along a side of a tile, 1 at least.
pub const LONGEST_SIDE: u32 = 1024;
/// Cells of a mosaic.
pub const MOST_CELLS: u32 = 1 << 18;
/// Contacts of a mosaic.
pub const MOST_CONTACTS: u32 = 256;

/// Cells of an exchange grid, both of its lists together.
pub const MOST_EXCHANGE_CELLS: u32 = 1 << 20;
/// Outlets of the land.
pub const MOST_OUTLETS: u32 = 1 << 18;
/// Layers of the ocean, 1 at least.
pub const MOST_LAYERS: u32 = 8;
/// Categories of the ice, 1 at least.
pub const MOST_CATEGORIES: u32 = 5;

/// The area of a cell or of an exchange cell.
pub const MOST_AREA: u64 = 1 << 40;
/// The weight of an outlet.
pub const MOST_WEIGHT: u64 = 1 << 20;
/// A number in a contact or a row of a grid's file: a tile, a column or a row of cells.
pub const MOST_IN_ROW: u64 = 65_535;

/// Pieces of a component, 1 at least.
pub const MOST_PIECES: u32 = 64;
/// Workers, 1 at least.
pub const MOST_WORKERS: u32 = 16;

/// Coupling steps of a run.
pub const MOST_STEPS: u32 = 10_000;
/// Fast steps in a coupling step, 1 at least.
pub const MOST_FAST_STEPS: u32 = 1_000;
/// Ocean steps in a coupling step, 1 at least.
pub const MOST_OCEAN_STEPS: u32 = 100;

/// The total of heat, of water and of salt: 2^62 - 1 each.
pub const MOST_TOTAL: u64 = (1 << 62) - 1;
/// The number of a face of the ocean, either way; the height of a column has the same limit.
pub const MOST_FACE: i64 = 1 << 40;
/// The parts of a cell of the ocean's grid, open water and ice together.
pub const PARTS: i64 = 65_536;

/// The heat of one unit of ice at freezing.
pub const ICE_HEAT: i64 = 1_092;
/// The heat of one unit of water at freezing.
pub const WATER_HEAT: i64 = 1_426;
/// The heat of one unit of vapour.
pub const VAPOUR_HEAT: i64 = 3_926;
/// The heat that melts one unit of ice at freezing: what the water holds more than the ice.
pub const MELT_HEAT: i64 = 334;

/// Each limit and each number of the scale of heat is the one that the formats and the model give, whatever else cites it.
pub fn limits_law()
    ensures limits { AreLimits }
    ensures scales { AreScales }
{}
