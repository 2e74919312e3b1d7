// Scripts: the actions of a piece by their numbers.
ghost use Rattle.std.specs.Prelude.{◌≡◌, ◌+◌, ◌*◌, ◌<◌, ◌≤◌, ◌==◌, ◌^◌, IfOk, length, flat_map, slice_get};
ghost use Rattle.cpl_namelist.specs.Ranges.{AreNames};
ghost use Rattle.cpl_wires.specs.Settings.{piece_count, component_of};
ghost use Rattle.cpl_wires.specs.Turns.{turned, step_and_sums};
ghost use Rattle.cpl_wires.specs.Stops.{stops, stops_of};
ghost use Rattle.cpl_wires.specs.Lengths.{AreShort, move_length, moves_length, lengths_of, actions_of};

use crate::edges::Edges;
use crate::moves::{closing, fast_moves, ocean_moves, opening, summing};
use crate::parts::{Lengths, Move, Stop, Turn};
use cpl_core::Act;
use cpl_namelist::Names;

// How many actions a move has.
fn move_length(edges: &Edges, piece: u32, kind: Move) -> u64
    requires { piece < piece_count edges.now }
    ensures length { result ≡ move_length edges.now piece kind }
    ensures few { result ≤ 37_120 }
{
    match kind {
        Move::Posts(purpose) => edges.posted(piece, purpose).len() as u64,
        Move::Takes(purpose) => edges.taken(piece, purpose).len() as u64,
        Move::Does(_) => 1,
    }
}

// How many actions moves have.
fn moves_length(edges: &Edges, piece: u32, moves: &[Move]) -> u64
    requires piece { piece < piece_count edges.now }
    requires few { length moves.now ≤ 9 }
    ensures length { result ≡ moves_length edges.now piece moves.now }
    ensures few { result ≤ 334_080 }
{
    let mut count = 0;
    for kind in moves {
        count += move_length(edges, piece, *kind);
    }
    count
}

// The action of a number among those of a turn.
fn stop_of(edges: &Edges, piece: u32, turn: Turn, m: u64) -> Option<Stop>
    requires { piece < piece_count edges.now }
    ensures { result ≡ slice_get (stops_of edges.now piece turn) m }
{
    match turn.kind {
        Move::Posts(purpose) => {
            let list = edges.posted(piece, purpose);
            if m >= list.len() as u64 {
                return None;
            }
            let edge = list[m as usize];
            Some(Stop {
                act: Act::Post { edge },
                slot: edges.post_slot(edge),
                turn,
            })
        }
        Move::Takes(purpose) => {
            let list = edges.taken(piece, purpose);
            if m >= list.len() as u64 {
                return None;
            }
            let edge = list[m as usize];
            Some(Stop {
                act: Act::Take { edge },
                slot: edges.take_slot(edge),
                turn,
            })
        }
        Move::Does(_) if m == 0 => Some(Stop {
            act: Act::Compute,
            slot: 0,
            turn,
        }),
        Move::Does(_) => None,
    }
}

// The action of a number among those of moves.
fn stop_among(
    edges: &Edges,
    piece: u32,
    moves: &[Move],
    step: u32,
    sub: u32,
    m: u64,
) -> Option<Stop>
    requires { piece < piece_count edges.now }
    ensures { result ≡ slice_get (flat_map (stops_of edges.now piece) (turned step sub moves.now)) m }
{
    let mut rest = m;
    for kind in moves {
        let length = move_length(edges, piece, *kind);
        if rest < length {
            let turn = Turn {
                kind: *kind,
                step,
                sub,
            };
            return stop_of(edges, piece, turn, rest);
        }
        rest -= length;
    }
    None
}

// The action of a number among those of a coupling step, with the sums after it.
fn stop_in_step(edges: &Edges, lengths: &Lengths, piece: u32, step: u32, m: u64) -> Option<Stop>
    requires piece { piece < piece_count edges.now }
    requires lengths { lengths.now ≡ lengths_of edges.now piece }
    requires step { step < edges.now.names.steps }
    ensures { result ≡ slice_get (flat_map (stops_of edges.now piece) (step_and_sums edges.now.names (component_of edges.now piece) (piece == 0) step)) m }
{
    let names = edges.shared().pieces().names();
    let opens = opening(lengths.component, step == 0);
    let fasts = u64::from(names.fast) * lengths.fast;
    let oceans = u64::from(names.ocean_steps) * lengths.ocean;
    let closes = closing(lengths.component, step + 1 == names.steps);
    let begins = lengths.opens(step == 0);
    let ends = lengths.closes(step + 1 == names.steps);
    if m < begins {
        return stop_among(edges, piece, opens, step, 0, m);
    }
    let m = m - begins;
    if m < fasts {
        let sub = m / lengths.fast;
        return stop_among(
            edges,
            piece,
            fast_moves(lengths.component),
            step,
            sub as u32,
            m - sub * lengths.fast,
        );
    }
    let m = m - fasts;
    if m < oceans {
        let sub = m / lengths.ocean;
        return stop_among(
            edges,
            piece,
            ocean_moves(lengths.component),
            step,
            sub as u32,
            m - sub * lengths.ocean,
        );
    }
    let m = m - oceans;
    if m < ends {
        return stop_among(edges, piece, closes, step, 0, m);
    }
    stop_among(edges, piece, summing(piece == 0), step + 1, 0, m - ends)
}

// The action of a number in a piece's script. It takes constant time and no memory.
pub(crate) fn stop_at(edges: &Edges, lengths: &Lengths, piece: u32, m: u64) -> Option<Stop>
    requires piece { piece < piece_count edges.now }
    requires lengths { lengths.now ≡ lengths_of edges.now piece }
    ensures { result ≡ slice_get (stops edges.now piece) m }
{
    if m >= lengths.actions {
        return None;
    }
    if m < lengths.summing {
        return stop_among(edges, piece, summing(piece == 0), 0, 0, m);
    }
    let names = edges.shared().pieces().names();
    let (step, rest) = lengths.step_at(names, m - lengths.summing);
    stop_in_step(edges, lengths, piece, step, rest)
}

// How many actions the script of a piece has.
fn count_actions(lengths: &Lengths, names: &Names) -> u64
    requires names { AreNames names.now }
    requires short { AreShort lengths.now }
    ensures { result ≡ actions_of names.now lengths.now }
{
    if names.steps == 0 {
        return lengths.summing;
    }
    let begin = lengths.begin_of(names, names.steps - 1);
    lengths.summing + begin + lengths.step_size(names, names.steps == 1, true)
}

// How long the parts of a piece's script are.
pub(crate) fn lengths_of(edges: &Edges, piece: u32) -> Lengths
    requires { piece < piece_count edges.now }
    ensures lengths { result ≡ lengths_of edges.now piece }
    ensures short { AreShort result }
{
    let component = edges.shared().pieces().component(piece);
    let mut lengths = Lengths {
        component,
        summing: moves_length(edges, piece, summing(piece == 0)),
        first_opening: moves_length(edges, piece, opening(component, true)),
        opening: moves_length(edges, piece, opening(component, false)),
        fast: moves_length(edges, piece, fast_moves(component)),
        ocean: moves_length(edges, piece, ocean_moves(component)),
        closing: moves_length(edges, piece, closing(component, false)),
        last_closing: moves_length(edges, piece, closing(component, true)),
        actions: 0,
    };
    lengths.actions = count_actions(&lengths, edges.shared().pieces().names());
    lengths
}
