// The longest coupling steps, over pieces of one cell: how many actions there are, and what stands at the end and past it.
use crate::folded::FOLDED;
use crate::worlds::{Question, holds};
use cpl_wires::Move::{Does, Posts};
use cpl_wires::Purpose::Sums;
use cpl_wires::{Exchanges, Job, Move};
use std::alloc::{AllocError, Global};
use std::test::Fail;

/// A thousand fast steps and a hundred ocean steps in each coupling step, of which there are none, one or two.
const NONE: &str =
    "&coupler_nml current_date = 2001,3,1,0,0,0, calendar = 'gregorian', seconds = 0, dt_atmos = 1, dt_cpld = 1000 /
&ocean_nml dt_ocean = 10 /
&layout_nml atmos_layout = 2,2, ice_layout = 4,2, ocean_layout = 4,2 /
";

const ONE: &str =
    "&coupler_nml current_date = 2001,3,1,0,0,0, calendar = 'gregorian', seconds = 1000, dt_atmos = 1, dt_cpld = 1000 /
&ocean_nml dt_ocean = 10 /
&layout_nml atmos_layout = 2,2, ice_layout = 4,2, ocean_layout = 4,2 /
";

const TWO: &str =
    "&coupler_nml current_date = 2001,3,1,0,0,0, calendar = 'gregorian', seconds = 2000, dt_atmos = 1, dt_cpld = 1000 /
&ocean_nml dt_ocean = 10 /
&layout_nml atmos_layout = 2,2, ice_layout = 4,2, ocean_layout = 4,2 /
";

/// The first piece of each component, and how many actions it has in these runs. There are 25 pieces: 8 of the air, 1 of the land, 8 of the
/// ice and 8 of the ocean.
///
/// - The first cell of the air meets one cell of the ice, and beside it are two cells: a fast step is 1 Take, 1 Compute, 1 and 2 Posts, 1
///   Compute, 2 Takes and 1 Compute, 9 in all. Its sums are 27 actions: a Post, 25 Takes and a Compute.
/// - The land is dry: a fast step is 1 Compute, and so is the runoff. Its sums are 1, as those of all that follow.
/// - The first cell of the ice has a fast step of 3. A coupling step opens by 1 Take, but the first one, and 1 Compute, and closes by 1
///   Compute and 1 Post, but the last one.
/// - Of the first cell of the ocean four others are two steps away or less: two to the right, one above, and one that the fold leads to.
///   An ocean step is 4 Posts, 1 Compute, 4 Takes and 1 Compute, 10 in all. A coupling step opens and closes as that of the ice.
const CASES: [(&'static str, u32, [(u32, u64, Move); 4]); 3] = [
    (
        NONE,
        0,
        [
            (0, 27, Does(Job::Gather)),
            (8, 1, Posts(Sums)),
            (9, 1, Posts(Sums)),
            (17, 1, Posts(Sums)),
        ],
    ),
    (
        ONE,
        1,
        [
            (0, 9_054, Does(Job::Gather)),
            (8, 1_003, Posts(Sums)),
            (9, 3_004, Posts(Sums)),
            (17, 1_004, Posts(Sums)),
        ],
    ),
    (
        TWO,
        2,
        [
            (0, 18_081, Does(Job::Gather)),
            (8, 2_005, Posts(Sums)),
            (9, 6_009, Posts(Sums)),
            (17, 2_009, Posts(Sums)),
        ],
    ),
];

// Whether a script of this many actions ends by this move after so many coupling steps.
fn ends_so(exchanges: &Exchanges, steps: u32, (piece, actions, kind): (u32, u64, Move)) -> bool {
    if piece >= exchanges.piece_count() || actions == 0 {
        return false;
    }
    let last = match exchanges.stop(piece, actions - 1) {
        Some(stop) => stop.turn.kind == kind && stop.turn.step == steps,
        None => false,
    };
    last && exchanges.actions(piece) == actions
        && exchanges.stop(piece, actions).is_none()
        && exchanges.stop(piece, u64::MAX).is_none()
}

/// How many coupling steps there are, and how the scripts of pieces end.
#[derive(Drop)]
struct Ends {
    steps: u32,
    pieces: [(u32, u64, Move); 4],
}

impl Question for Ends {
    fn holds(&self, _alloc: Global, exchanges: &Exchanges) -> Result<bool, AllocError> {
        if exchanges.piece_count() != 25 || exchanges.edge_count() == 0 {
            return Ok(false);
        }
        for piece in &self.pieces {
            if !ends_so(exchanges, self.steps, *piece) {
                return Ok(false);
            }
        }
        let steps = u64::from(self.steps);
        let sums = exchanges.edge_count() - 1;
        Ok(exchanges.uses(0) == steps * 1_000 && exchanges.uses(sums) == steps + 1)
    }
}

#[test]
fn scripts_end_where_they_end(rt: HostRuntime) -> Result<(), Fail> {
    let (grid, _) = FOLDED;
    for (names, steps, pieces) in CASES {
        let ends = Ends { steps, pieces };
        assert!(rt;
            holds(rt.alloc(), (grid, names), &ends)?,
            "of {steps} steps"
        );
    }
    Ok(())
}
