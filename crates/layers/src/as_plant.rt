// A layer as a plant: the place that is in the way of a call is one below, else that of one of the layer's own rows. As a pile a shut
// layer has blank rows, so each call says besides that it leaves those of a shut layer alone.
ghost use Rattle.std.specs.Prelude.{◌≡◌, ℕ, true, if◌then◌else◌};
ghost use Rattle.layers.specs.Piles.{pile_of};
ghost use Rattle.layers.specs.Rows.{rows_of, top_of};
ghost use Rattle.model.specs.Layer.{is_shut, layer_free, row_count, pile_begun, pile_finished, pile_gone_back};
ghost use Rattle.model.specs.Plant.{accepted, begin_answer, finish_answer, back_answer, begun, finished, gone_back};
ghost use Rattle.layers.specs.Shut.{same_net, same_free};
ghost use Rattle.std.proofs.Common.{rules};

use crate::layer::Layer;
use crate::table::Table;
use model::fault::Fault;
use plant::net::Net;
use plant::plant::Plant;

impl<P: Plant, const N: usize> Plant for Layer<P, Table<N>> {
    ghost tokens = { λ s. layer_free (row_count (top_of N)) (P.Net.net s.below) (P.Plant.tokens s.below) (rows_of s.rows.rows) };

    ghost pile = { λ s. pile_of P.Net.net P.Plant.tokens s };

    ghost stacked = { λ s. (same_net (row_count (top_of N)) (P.Net.net s.below) (rows_of s.rows.rows), same_free (row_count (top_of N)) (P.Net.net s.below) (rows_of s.rows.rows) (P.Plant.tokens s.below)) };

    ghost within = { Prim.search rules };

    fn free(&self, p: usize) -> u32 {
        match self.own_row(p) {
            Some(r) => self.rows.free(r),
            None => self.below.free(p),
        }
    }

    fn short_place(&self, t: usize) -> Option<usize> {
        self.or_row(
            self.below.short_place(t),
            self.rows_take(t),
            |row| row.free < row.take(t),
        )
    }

    fn over_by_give(&self, t: usize) -> Option<usize> {
        self.or_row(
            self.below.over_by_give(t),
            self.rows_give(t),
            |row| row.goes_over(row.give(t)),
        )
    }

    fn over_by_take(&self, t: usize) -> Option<usize> {
        self.or_row(
            self.below.over_by_take(t),
            self.rows_take(t),
            |row| row.goes_over(row.take(t)),
        )
    }

    // Kept: this call and the next two. A function of all three needs a bound `FnOnce(&mut Table<N>)`, and the check covers no bound of a
    // closure that names a const parameter. A method of `Plant` that moves tokens unasked would be public with a `requires`, and no public
    // function may have one where a refusal can stand.
    fn begin(&mut self, t: usize) -> Result<(), Fault>
        ensures answer { result ≡ begin_answer (⟦<Self as Net>⟧.net self.old) (⟦<Self as Plant>⟧.tokens self.old) t }
        ensures same { ⟦<Self as Net>⟧.net self.new ≡ ⟦<Self as Net>⟧.net self.old }
        ensures after { ⟦<Self as Plant>⟧.tokens self.new ≡ begun (⟦<Self as Net>⟧.net self.old) (⟦<Self as Plant>⟧.tokens self.old) t }
        ensures whole { ⟦<Self as Plant>⟧.pile self.new ≡ (if accepted result then pile_begun (⟦<Self as Plant>⟧.pile self.old) t else ⟦<Self as Plant>⟧.pile self.old) }
        ensures shut { is_shut (row_count (top_of N)) (P.Net.net self.old.below) ≡ true → rows_of self.new.rows.rows ≡ rows_of self.old.rows.rows }
    {
        self.may_begin(t)?;
        self.below.begin(t)?;
        if self.rows_take(t) {
            self.rows.begin(t);
        }
        Ok(())
    }

    fn finish(&mut self, t: usize) -> Result<(), Fault>
        ensures answer { result ≡ finish_answer (⟦<Self as Net>⟧.net self.old) (⟦<Self as Plant>⟧.tokens self.old) t }
        ensures same { ⟦<Self as Net>⟧.net self.new ≡ ⟦<Self as Net>⟧.net self.old }
        ensures after { ⟦<Self as Plant>⟧.tokens self.new ≡ finished (⟦<Self as Net>⟧.net self.old) (⟦<Self as Plant>⟧.tokens self.old) t }
        ensures whole { ⟦<Self as Plant>⟧.pile self.new ≡ (if accepted result then pile_finished (⟦<Self as Plant>⟧.pile self.old) t else ⟦<Self as Plant>⟧.pile self.old) }
        ensures shut { is_shut (row_count (top_of N)) (P.Net.net self.old.below) ≡ true → rows_of self.new.rows.rows ≡ rows_of self.old.rows.rows }
    {
        self.may_finish(t)?;
        self.below.finish(t)?;
        if self.rows_give(t) {
            self.rows.finish(t);
        }
        Ok(())
    }

    fn back(&mut self, t: usize) -> Result<(), Fault>
        ensures answer { result ≡ back_answer (⟦<Self as Net>⟧.net self.old) (⟦<Self as Plant>⟧.tokens self.old) t }
        ensures same { ⟦<Self as Net>⟧.net self.new ≡ ⟦<Self as Net>⟧.net self.old }
        ensures after { ⟦<Self as Plant>⟧.tokens self.new ≡ gone_back (⟦<Self as Net>⟧.net self.old) (⟦<Self as Plant>⟧.tokens self.old) t }
        ensures whole { ⟦<Self as Plant>⟧.pile self.new ≡ (if accepted result then pile_gone_back (⟦<Self as Plant>⟧.pile self.old) t else ⟦<Self as Plant>⟧.pile self.old) }
        ensures shut { is_shut (row_count (top_of N)) (P.Net.net self.old.below) ≡ true → rows_of self.new.rows.rows ≡ rows_of self.old.rows.rows }
    {
        self.may_back(t)?;
        self.below.back(t)?;
        if self.rows_take(t) {
            self.rows.back(t);
        }
        Ok(())
    }
}
