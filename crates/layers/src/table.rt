// A table of so many rows, and what no value of it is without.
#![tactic(auto, unfolding(crate::specs::Rows::rows_of))]

ghost use Rattle.std.specs.Prelude.{◌≡◌, ℕ, ◌+◌, ◌-◌, ◌<◌, ◌≤◌, Bool, pos, IfSome, length, slice_index_or, unsigned_abs};
ghost use Rattle.std.specs.Fn.{FnReturnsAt};
ghost use Rattle.layers.specs.Kept.{Kept};
ghost use Rattle.layers.specs.Rows.{rows_of, rule_row, top_of, Tells};
ghost use Rattle.model.specs.Layer.{Row as RowValue, blank, row_count, row_with, change_row};
ghost use Rattle.model.specs.Plant.{lowest};
ghost use Rattle.model.specs.Sizes.{control_limit, most_control_arc};

use crate::row::Row;
use model::sizes::MOST_MOVES;

// The rows count from 0; a missing one has no arcs and no tokens, and no rule.
#[derive(Drop)]
pub struct Table<const N: usize> {
    pub(crate) rows: [Row; N],
    ghost all: { length rows ≡ N },
    ghost sized: { row_count (top_of N) ≡ N },
    ghost kept: { (r : ℕ) → Kept (rows_of rows r) },
}

impl<const N: usize> Table<N> {
    // Rows without rules.
    pub(crate) fn blank() -> Self
        requires { row_count (top_of N) ≡ N }
        ensures { rows_of result.rows ≡ (λ r. blank) }
    {
        Table {
            rows: [Row::blank(); N],
        }
    }

    pub(crate) fn count(&self) -> usize
        ensures { result ≡ row_count (top_of N) }
    {
        N
    }

    // What the move `t` takes from the row `r` when it begins.
    pub(crate) fn take(&self, r: usize, t: usize) -> u32
        ensures { result ≡ (rows_of self.now.rows r).take t }
    {
        self.rows.get(r).map_or(0, |row| row.take(t))
    }

    // What the move `t` gives to the row `r` when it finishes.
    pub(crate) fn give(&self, r: usize, t: usize) -> u32
        ensures { result ≡ (rows_of self.now.rows r).give t }
    {
        self.rows.get(r).map_or(0, |row| row.give(t))
    }

    // The tokens now at the row `r`.
    pub(crate) fn free(&self, r: usize) -> u32
        ensures { result ≡ (rows_of self.now.rows r).free }
    {
        self.rows.get(r).map_or(0, |row| row.free)
    }

    // Whether the row `r` has a rule.
    pub(crate) fn in_use(&self, r: usize) -> bool
        ensures { result ≡ (rows_of self.now.rows r).in_use }
    {
        self.rows.get(r).is_some_and(|row| row.in_use)
    }

    // The row `r` is that of a rule, by what each move raises it, with so many tokens; no other row changes.
    pub(crate) fn set_rule(&mut self, r: usize, raises: &[i32; MOST_MOVES], free: u32)
        requires row { r < row_count (top_of N) }
        requires room { free ≤ control_limit }
        requires small { (t : ℕ) → unsigned_abs (slice_index_or raises.now t (pos 0)) ≤ most_control_arc }
        ensures { rows_of self.new.rows ≡ change_row (rows_of self.old.rows) r (rule_row (λ t. slice_index_or raises.now t (pos 0)) free) }
    {
        self.rows[r].set_rule(raises, free);
    }

    // The lowest row that passes the test.
    pub(crate) fn lowest<F: Fn(&Row) -> bool>(&self, test: F) -> Option<usize>
        requires { F.IsAlwaysCallable test }
        ensures within { IfSome result (λ r. r < row_count (top_of N)) }
        ensures told { (f : RowValue → Bool) → Tells (FnReturnsAt F.Fn test) f → result ≡ lowest (λ r. f (rows_of self.now.rows r)) 0 (row_count (top_of N)) }
    {
        self.rows.iter().position(test)
    }

    // Takes from each row what the move `t` takes there.
    // Kept: three loops of one line, here and in the next two. A shared `change(|row| row.free - row.take(t))` would need clauses on its
    // closure: the difference is asked of every row, but may be asked only of a row that has at least what is taken, and the answer is
    // said of each row.
    pub(crate) fn begin(&mut self, t: usize)
        requires { (r : ℕ) → r < row_count (top_of N) → (rows_of self.old.rows r).take t ≤ (rows_of self.old.rows r).free }
        ensures { rows_of self.new.rows ≡ (λ r. row_with (rows_of self.old.rows r) ((rows_of self.old.rows r).free - (rows_of self.old.rows r).take t)) }
    {
        'begun: for row in &mut self.rows {
            row.free -= row.take(t);
        }
    }

    // Gives to each row what the move `t` gives there.
    pub(crate) fn finish(&mut self, t: usize)
        requires { (r : ℕ) → r < row_count (top_of N) → (rows_of self.old.rows r).free + (rows_of self.old.rows r).give t ≤ control_limit }
        ensures { rows_of self.new.rows ≡ (λ r. row_with (rows_of self.old.rows r) ((rows_of self.old.rows r).free + (rows_of self.old.rows r).give t)) }
    {
        'finished: for row in &mut self.rows {
            row.free += row.give(t);
        }
    }

    // Gives back to each row what the move `t` takes there.
    pub(crate) fn back(&mut self, t: usize)
        requires { (r : ℕ) → r < row_count (top_of N) → (rows_of self.old.rows r).free + (rows_of self.old.rows r).take t ≤ control_limit }
        ensures { rows_of self.new.rows ≡ (λ r. row_with (rows_of self.old.rows r) ((rows_of self.old.rows r).free + (rows_of self.old.rows r).take t)) }
    {
        'gone_back: for row in &mut self.rows {
            row.free += row.take(t);
        }
    }
}
