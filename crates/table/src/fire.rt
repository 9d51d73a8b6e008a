// The table as a net and as a plant.
ghost use Rattle.std.specs.Prelude.{◌≡◌, ℕ, ◌<◌, ◌≤◌, if◌then◌else◌, ◌&&◌, nat_lt, slice_index};
ghost use Rattle.model.specs.Sizes.{most_places, most_moves};
ghost use Rattle.model.specs.Layer.{plant_alone};
ghost use Rattle.table.specs.Cells.{none, cell};
ghost use Rattle.table.specs.Tables.{net_of, tokens_of};
ghost use Rattle.std.proofs.Common.{rules, arith};

use crate::cell::Cell;
use crate::table::Table;
use model::fault::Fault;
use model::sizes::{MOST_MOVES, MOST_PLACES};
use plant::net::Net;
use plant::plant::Plant;

// Makes the tokens of the first `n` places anew: of the arc of the move `t` there, and of what they were.
// Kept: the arcs of all moves beside `t`. Of a call with `&self.arcs[t]` the check says that the table has its arcs with that row put
// there again, and each call would have to show that they are the same.
fn change<F: Fn(Cell, u32) -> u32>(
    tokens: &mut [u32; MOST_PLACES],
    arcs: &[[Cell; MOST_PLACES]; MOST_MOVES],
    n: usize,
    t: usize,
    made: F,
)
    requires few { (n ≤ most_places) × (t < most_moves) }
    requires may { (p : ℕ) → p < n → F.pre made (cell arcs.now p t) (slice_index tokens.old p) }
    ensures changed { (p : ℕ) → p < n → F.post made (cell arcs.now p t) (slice_index tokens.old p) (slice_index tokens.new p) }
    ensures rest { (p : ℕ) → n ≤ p → slice_index tokens.new p ≡ slice_index tokens.old p }
{
    'places: for (p, tokens) in tokens[..n].iter_mut().enumerate() {
        *tokens = made(arcs[t][p], *tokens);
    }
}

impl Table {
    // The arc between the place `p` and the move `t`; none if there is no such place or move.
    fn arc(&self, p: usize, t: usize) -> Cell
        ensures { result ≡ (if nat_lt p self.now.places && nat_lt t self.now.moves then cell self.now.arcs p t else none) }
    {
        if p < self.places && t < self.moves {
            self.arcs[t][p]
        } else {
            Cell::NONE
        }
    }
}

impl Net for Table {
    ghost net = { net_of };

    ghost sound = { Prim.search rules };

    ghost layered = { Prim.search rules };

    fn ground(&self) -> usize {
        self.places
    }

    fn places(&self) -> usize {
        self.places
    }

    fn moves(&self) -> usize {
        self.moves
    }

    fn controllable(&self, t: usize) -> bool {
        self.controllable[..self.moves]
            .get(t)
            .copied()
            .unwrap_or(false)
    }

    fn take(&self, p: usize, t: usize) -> u32 {
        u32::from(self.arc(p, t).take)
    }

    fn give(&self, p: usize, t: usize) -> u32 {
        u32::from(self.arc(p, t).give)
    }

    fn limit(&self, p: usize) -> u32 {
        self.limits[..self.places].get(p).copied().unwrap_or(0)
    }

    fn layer(&self, _p: usize) -> usize {
        0
    }

    fn row(&self, _p: usize) -> usize {
        0
    }
}

impl Plant for Table {
    ghost tokens = { tokens_of };

    ghost pile = { λ s. plant_alone (net_of s) (tokens_of s) };

    ghost stacked = { Prim.search rules };

    ghost within = { Prim.search rules };

    fn free(&self, p: usize) -> u32 {
        self.tokens[..self.places].get(p).copied().unwrap_or(0)
    }

    // Kept: this call and the next two, the same in `bank` and in `table`. To provide them, `Plant` would need a method that moves the
    // tokens of `t` unasked: public as the trait is, with a `requires` that the move may begin. No public function may have a `requires`
    // where a refusal can stand.
    fn begin(&mut self, t: usize) -> Result<(), Fault> {
        self.may_begin(t)?;
        change(&mut self.tokens, &self.arcs, self.places, t, Cell::taken);
        Ok(())
    }

    fn finish(&mut self, t: usize) -> Result<(), Fault> {
        self.may_finish(t)?;
        change(&mut self.tokens, &self.arcs, self.places, t, Cell::given);
        Ok(())
    }

    fn back(&mut self, t: usize) -> Result<(), Fault> {
        self.may_back(t)?;
        change(&mut self.tokens, &self.arcs, self.places, t, Cell::returned);
        Ok(())
    }
}
