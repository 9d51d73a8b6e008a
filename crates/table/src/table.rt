// The net table, and what no value of it is without.
ghost use Rattle.std.specs.Prelude.{◌≡◌, ℕ, ◌≤◌, slice_index, slice_index_or};
ghost use Rattle.model.specs.Sizes.{most_places, most_moves, most_arc, most_limit};
ghost use Rattle.table.specs.Cells.{none, cell};

use crate::cell::Cell;
use model::sizes::{MOST_MOVES, MOST_PLACES};

// Kept: two counts beside arrays of fixed size. A `Vec` would take an allocator, so that `make` would have one more argument and could
// fail for want of memory, which it cannot now.
#[derive(Drop)]
pub struct Table {
    pub(crate) places: usize,
    pub(crate) moves: usize,
    pub(crate) controllable: [bool; MOST_MOVES],
    // the arc of each place, move by move
    pub(crate) arcs: [[Cell; MOST_PLACES]; MOST_MOVES],
    // Kept: two arrays beside each other. Over one of both, `change` would also promise, and its invariant say, that each limit stays.
    pub(crate) limits: [u32; MOST_PLACES],
    pub(crate) tokens: [u32; MOST_PLACES],
    ghost some_places: { 1 ≤ places },
    ghost few_places: { places ≤ most_places },
    ghost some_moves: { 1 ≤ moves },
    ghost few_moves: { moves ≤ most_moves },
    ghost small_takes: { (p t : ℕ) → (cell arcs p t).take ≤ most_arc },
    ghost small_gives: { (p t : ℕ) → (cell arcs p t).give ≤ most_arc },
    // no arc at a spare place
    ghost spare: { (p t : ℕ) → places ≤ p → cell arcs p t ≡ none },
    ghost some_limits: { (p : ℕ) → 1 ≤ slice_index_or limits p 1 },
    ghost small_limits: { (p : ℕ) → slice_index_or limits p 1 ≤ most_limit },
    ghost held: { (p : ℕ) → slice_index tokens p ≤ slice_index_or limits p 1 },
}
