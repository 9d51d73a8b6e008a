// A layer as a net.
ghost use Rattle.std.specs.Prelude.{◌≡◌, ℕ};
ghost use Rattle.model.specs.Layer.{layer_net, row_count};
ghost use Rattle.model.proofs.LayerCalls.{layer_keeps};
ghost use Rattle.layers.specs.Layered.{layer_layered};
ghost use Rattle.layers.specs.Rows.{rows_of, top_of};

use crate::layer::Layer;
use crate::table::Table;
use model::sizes::CONTROL_LIMIT;
use plant::net::Net;
use plant::plant::Plant;

// The ground places and the moves are those below; the control places of the rows come after all places below.
impl<P: Plant, const N: usize> Net for Layer<P, Table<N>> {
    ghost net = { λ s. layer_net (row_count (top_of N)) (P.Net.net s.below) (rows_of s.rows.rows) };

    ghost sound = { λ s.
        layer_keeps (row_count (top_of N)) (P.Net.net s.below) (rows_of s.rows.rows) (P.Net.sound s.below)
        (λ r t l. ((s.rows.kept r).small_takes t, (s.rows.kept r).small_gives t)) };

    ghost layered = { λ s p. layer_layered (row_count (top_of N)) (P.Net.net s.below) (rows_of s.rows.rows) (P.Net.sound s.below) (P.Net.layered s.below) p };

    fn ground(&self) -> usize {
        self.below.ground()
    }

    fn places(&self) -> usize {
        if self.is_shut() {
            self.below.places()
        } else {
            self.below.places() + self.rows.count()
        }
    }

    fn moves(&self) -> usize {
        self.below.moves()
    }

    fn controllable(&self, t: usize) -> bool {
        self.below.controllable(t)
    }

    // Kept: a `match` on the row here, in the next four and in `free`. With `map_or_else(|| self.below.limit(p), ..)` each closure needs an
    // `ensures`: the check infers no contract for one that holds a layer. In `take` and `give` a guard would become an `if`.
    fn take(&self, p: usize, t: usize) -> u32 {
        match self.own_row(p) {
            Some(r) if self.below.controllable(t) => self.rows.take(r, t),
            Some(_) => 0,
            None => self.below.take(p, t),
        }
    }

    fn give(&self, p: usize, t: usize) -> u32 {
        match self.own_row(p) {
            Some(r) if t < self.below.moves() => self.rows.give(r, t),
            Some(_) => 0,
            None => self.below.give(p, t),
        }
    }

    fn limit(&self, p: usize) -> u32 {
        match self.own_row(p) {
            Some(_) => CONTROL_LIMIT,
            None => self.below.limit(p),
        }
    }

    fn layer(&self, p: usize) -> usize {
        match self.own_row(p) {
            Some(_) => self.next_layer(),
            None => self.below.layer(p),
        }
    }

    fn row(&self, p: usize) -> usize {
        match self.own_row(p) {
            Some(r) => r,
            None => self.below.row(p),
        }
    }
}
