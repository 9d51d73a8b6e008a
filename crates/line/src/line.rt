// The buffer line, and what no value of it is without.
ghost use Rattle.std.specs.Prelude.{ℕ, ◌<◌, ◌≤◌};
ghost use Rattle.model.specs.Sizes.{most_limit, most_moves};
ghost use Rattle.line.specs.Slots.{slot};

use crate::slot::Slot;
use model::sizes::MOST_MOVES;

// The most places of a line: one fewer than its moves.
pub const PLACES: usize = MOST_MOVES - 1;

// The first `count` places and `count + 1` moves are the line's; the rest of each array is spare.
// Kept: a count beside two arrays of fixed size. A `Vec` would take an allocator, so that `make` would have one more argument and could
// fail for want of memory, which it cannot now.
#[derive(Drop)]
pub struct Line {
    pub(crate) count: usize,
    pub(crate) slots: [Slot; PLACES],
    pub(crate) controllable: [bool; MOST_MOVES],
    ghost some: { 1 ≤ count },
    ghost few: { count < most_moves },
    ghost some_limits: { (p : ℕ) → p < count → 1 ≤ (slot slots p).limit },
    ghost small_limits: { (p : ℕ) → (slot slots p).limit ≤ most_limit },
    ghost held: { (p : ℕ) → (slot slots p).tokens ≤ (slot slots p).limit },
}
