// A table from a net text that was read.
ghost use Rattle.std.specs.Prelude.{◌≡◌, ℕ, ◌≤◌, true};
ghost use Rattle.model.specs.Sizes.{most_places, most_moves, most_arc};
ghost use Rattle.formats.specs.Words.{all};
ghost use Rattle.table.specs.Cells.{cell, cell_of};
ghost use Rattle.table.specs.Made.{joins, is_fit, Made};

use crate::cell::Cell;
use crate::table::Table;
use formats::kind::Kind;
use model::sizes::{MOST_ARC, MOST_MOVES, MOST_PLACES};
use net_text::net::{Arc, NetText};
use plant::front::front;

// Whether the arc is one of 0 to 9 between a place and a move that there are.
fn joins(arc: &Arc, places: usize, moves: usize) -> bool
    ensures { result ≡ joins places moves arc.now }
{
    arc.place < places && arc.transition < moves && arc.take <= MOST_ARC && arc.give <= MOST_ARC
}

fn all_join(arcs: &[Arc], places: usize, moves: usize) -> bool
    ensures { result ≡ all (joins places moves) arcs.now }
{
    arcs.iter().all(|arc| joins(arc, places, moves))
}

// Whether a table can hold the net.
fn is_fit(net: &NetText) -> bool
    ensures { result ≡ is_fit net.now }
{
    let places = net.places.len();
    let moves = net.moves.len();
    if places < 1 || places > MOST_PLACES || moves < 1 || moves > MOST_MOVES {
        return false;
    }
    matches!(net.kind, Kind::Net) && net.all_filled() && all_join(&net.arcs, places, moves)
}

// The table of the arcs, which are of places and moves that it has.
fn cells_of(arcs: &[Arc]) -> [[Cell; MOST_PLACES]; MOST_MOVES]
    requires { all (joins most_places most_moves) arcs.now ≡ true }
    ensures cells { (p t : ℕ) → cell result p t ≡ cell_of arcs.now p t }
    ensures small_takes { (p t : ℕ) → (cell result p t).take ≤ most_arc }
    ensures small_gives { (p t : ℕ) → (cell result p t).give ≤ most_arc }
{
    let mut cells = [[Cell::NONE; MOST_PLACES]; MOST_MOVES];
    for arc in arcs {
        cells[arc.transition][arc.place] = Cell::of(arc);
    }
    cells
}

// The table of a net text that was read, if it is of the kind net and within the sizes.
pub fn make(net: &NetText) -> Option<Table>
    ensures { Made net.now result }
{
    if !is_fit(net) {
        return None;
    }
    Some(Table {
        places: net.places.len(),
        moves: net.moves.len(),
        controllable: front(&net.moves, false, |read| read.controllable),
        arcs: cells_of(&net.arcs),
        limits: front(&net.places, 1, |place| place.limit),
        tokens: front(&net.places, 0, |place| place.tokens),
    })
}
