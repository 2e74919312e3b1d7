// What the holder of a pass knows of the boxes, as plain data for the proofs, and the rule that it is under.
use atomic_table::{Join, Play, Seat, Shared, Split, TableRule};
use cpl_core::{Wires, Wiring};
use std::collections::LinkedList;
use std::marker::PhantomData;

/// What the holder of a pass knows. Contracts alone speak of it; no value of it is made.
pub struct View {
    /// Whether the pass is still in use; one that was joined into another isn't.
    pub live: bool,
    /// The wiring as data.
    pub wires: Wires,
    /// The edge whose list the holder has in the midst of a try, with the word that stands there.
    pub held: Option<(u32, u64)>,
    /// How often the holder has posted, by edge.
    pub posts: LinkedList<u64>,
    /// How often the holder has taken, by edge.
    pub takes: LinkedList<u64>,
    /// The greatest word that the holder has seen, by edge.
    pub seen: LinkedList<u64>,
    /// How often the holder has tried.
    pub tries: u64,
    /// The edge of the last try.
    pub last_edge: u32,
    /// The word that the last try found.
    pub last_word: u64,
}

/// The rule of the boxes of a wiring: at each even word the list is at home and is the box's content, and no
/// view says more than the words do. Defined by this project.
pub struct Wired<W> {
    wiring: PhantomData<W>,
}

impl<W: Wiring> TableRule<Vec<i64>, View, W> for Wired<W> {
    ghost use Rattle.cpl_box.specs.Rule.{Kept};
    ghost use Rattle.cpl_box.specs.Views.{newcomer};

    ghost holds = { λ wiring. Kept (W.wires wiring) };

    ghost first = { λ wiring. newcomer (W.wires wiring) };
}

pub(crate) type BoxSeat = Seat<Vec<i64>, View>;

pub(crate) type Words<W> = Shared<Vec<i64>, View, W, Wired<W>>;

// A compare and exchange that claims a box for its poster or its taker.
pub(crate) struct Claim;

impl Play<Vec<i64>, View> for Claim {
    ghost use Rattle.cpl_box.specs.Steps.{claims};

    ghost then = { claims };
}

// The poster gives a filled list.
pub(crate) struct Publish;

impl Play<Vec<i64>, View> for Publish {
    ghost use Rattle.cpl_box.specs.Steps.{publishes};

    ghost then = { publishes };
}

// The taker gives a spare list.
pub(crate) struct Release;

impl Play<Vec<i64>, View> for Release {
    ghost use Rattle.cpl_box.specs.Steps.{releases};

    ghost then = { releases };
}

// How a pass is cut in two, and how two become one.
pub(crate) struct Cut;

impl Split<View> for Cut {
    ghost use Rattle.cpl_box.specs.Views.{onlooker};

    ghost left = { λ view. view };

    ghost right = { onlooker };
}

impl Join<View> for Cut {
    ghost use Rattle.cpl_box.specs.Views.{together, spent};

    ghost both = { together };

    ghost spent = { spent };
}
