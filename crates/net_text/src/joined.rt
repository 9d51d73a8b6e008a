// Which place and move an arc joins.
ghost use Rattle.std.specs.Prelude.{◌≡◌, ℕ, ◌<◌, false, ◌&&◌, ◌||◌, ◌==◌};
ghost use Rattle.model.specs.Sizes.{most_places, most_moves};
ghost use Rattle.net_text.specs.Joined.{has};

use model::sizes::{MOST_MOVES, MOST_PLACES};

// All pairs of a place and a move.
const MOST_PAIRS: usize = MOST_PLACES * MOST_MOVES;

// The pairs that arcs join, so that one is asked for by one look-up.
// Kept: one array, move by move. In an array of arrays `add` has to know how long the row is that it writes in: a ghost field would have
// to say it of every row, and `none` and `add` to show it; of one array the length is known.
#[derive(Drop)]
pub(crate) struct Joined {
    pairs: [bool; MOST_PAIRS],
}

impl Joined {
    // No pair.
    pub(crate) fn none() -> Joined
        ensures { (p t : ℕ) → has result p t ≡ false }
    {
        Joined {
            pairs: [false; MOST_PAIRS],
        }
    }

    // Whether an arc joins the place and the move.
    pub(crate) fn has(&self, place: usize, transition: usize) -> bool
        requires { (place < most_places) × (transition < most_moves) }
        ensures { result ≡ has self.now place transition }
    {
        self.pairs[transition * MOST_PLACES + place]
    }

    // Marks the pair.
    pub(crate) fn add(&mut self, place: usize, transition: usize)
        requires { (place < most_places) × (transition < most_moves) }
        ensures { (p t : ℕ) → p < most_places → has self.new p t ≡ (has self.old p t || (place == p && transition == t)) }
    {
        self.pairs[transition * MOST_PLACES + place] = true;
    }
}
