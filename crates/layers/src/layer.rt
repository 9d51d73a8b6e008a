// A layer: rows put on a plant, and where their places are.
ghost use Rattle.std.specs.Prelude.{◌≡◌, ℕ, ◌+◌, ◌&&◌, Bool, not, nat_lt, option_map, if◌then◌else◌};
ghost use Rattle.std.specs.Fn.{FnReturnsAt};
ghost use Rattle.std.specs.Option.{option_or};
ghost use Rattle.layers.specs.Layers.{own_row};
ghost use Rattle.layers.specs.OnTop.{OnTop};
ghost use Rattle.layers.specs.Piles.{Fresh};
ghost use Rattle.layers.specs.Rows.{rows_of, top_of, Tells};
ghost use Rattle.model.specs.Layer.{Row as RowValue, blank, is_shut, next_layer, row_count};
ghost use Rattle.model.specs.Plant.{lowest};

use crate::row::Row;
use crate::table::Table;
use model::sizes::MOST_ALL_PLACES;
use plant::net::Net;
use plant::plant::Plant;

// Any plant, and the rows whose control places stand after its places.
// Kept: the type of the rows is a parameter, though each is a `Table<N>`. Of a `Layer<P, const N: usize>` each call of a monitor has to
// show that it fits in memory, which is not known over just any plant `P`.
#[derive(Drop)]
pub struct Layer<P, R> {
    pub(crate) below: P,
    pub(crate) rows: R,
}

impl<P: Plant, const N: usize> Layer<P, Table<N>> {
    // A layer over the plant, of rows without rules.
    pub(crate) fn blank(below: P) -> Self
        requires { row_count (top_of N) ≡ N }
        ensures below { result.below ≡ below }
        ensures blank { rows_of result.rows.rows ≡ (λ r. blank) }
        ensures fresh { Fresh (top_of N) (P.Net.net below) (P.Plant.tokens below) (⟦<Self as Plant>⟧.pile result) }
        ensures on_top { OnTop (row_count (top_of N)) (P.Net.net below) (⟦<Self as Net>⟧.net result) (P.Plant.tokens below) (⟦<Self as Plant>⟧.tokens result) }
    {
        Layer {
            below,
            rows: Table::blank(),
        }
    }

    // Whether there is no room for the rows: then the layer adds no place.
    pub(crate) fn is_shut(&self) -> bool
        ensures { result ≡ is_shut (row_count (top_of N)) (P.Net.net self.now.below) }
    {
        self.below.places() + self.rows.count() > MOST_ALL_PLACES
    }

    // The row that has the place `p`, if it is the place of a row.
    pub(crate) fn own_row(&self, p: usize) -> Option<usize>
        ensures { result ≡ own_row (row_count (top_of N)) (P.Net.net self.now.below) p }
    {
        let first = self.below.places();
        // Kept: two tests, where `checked_sub` would make one: a ledger asks this four times for each place, and with that a grant and a
        // cancel take a twelfth more instructions.
        match p {
            p if p < first || self.is_shut() => None,
            p if p - first < self.rows.count() => Some(p - first),
            _ => None,
        }
    }

    // The number of this layer: one above the highest below.
    // Kept: `below` has a name, so that the closure does not hold the layer: the check infers no contract for one that does.
    pub(crate) fn next_layer(&self) -> usize
        ensures { result ≡ next_layer (P.Net.net self.now.below).places (P.Net.net self.now.below).layer }
    {
        let below = &self.below;
        (0..below.places())
            .map(|p| below.layer(p) + 1)
            .max()
            .unwrap_or(1)
    }

    // Whether the move `t` may take from the rows: a shut layer has none, and an uncontrollable move takes nothing there.
    pub(crate) fn rows_take(&self, t: usize) -> bool
        ensures { result ≡ (not (is_shut (row_count (top_of N)) (P.Net.net self.now.below)) && (P.Net.net self.now.below).controllable t) }
    {
        !self.is_shut() && self.below.controllable(t)
    }

    // Whether the move `t` may give to the rows: a shut layer has none, and a missing move gives nothing.
    pub(crate) fn rows_give(&self, t: usize) -> bool
        ensures { result ≡ (not (is_shut (row_count (top_of N)) (P.Net.net self.now.below)) && nat_lt t (P.Net.net self.now.below).moves) }
    {
        !self.is_shut() && t < self.below.moves()
    }

    // The place that was found below, or else that of the lowest row that passes the test, if the rows count.
    // Kept: a `match`, where `or_else` would take a closure that holds the layer, for which the check infers no contract.
    pub(crate) fn or_row<F: Fn(&Row) -> bool>(
        &self,
        found: Option<usize>,
        counts: bool,
        test: F,
    ) -> Option<usize>
        requires { F.IsAlwaysCallable test }
        ensures { (f : RowValue → Bool) → Tells (FnReturnsAt F.Fn test) f → result ≡ option_or found (if counts then option_map (λ r. (P.Net.net self.now.below).places + r) (lowest (λ r. f (rows_of self.now.rows.rows r)) 0 (row_count (top_of N))) else None) }
    {
        match found {
            None if counts => Some(self.below.places() + self.rows.lowest(test)?),
            found => found,
        }
    }
}
