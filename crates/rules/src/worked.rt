// A worked rule, and what no value of it is without.
ghost use Rattle.std.specs.Prelude.{ℕ, ◌≤◌, pos, slice_index_or, unsigned_abs};
ghost use Rattle.model.specs.Sizes.{most_worked_weight, most_worked_bound, most_rounds};

use model::sizes::MOST_PLACES;

// The rule L'·m ≤ b' that a typed rule was worked to, and how many rounds changed it.
// Kept: no `rule: TypedRule` in place of the first two fields: these numbers are worked and no longer typed, so the field would be named
// for what it is not, and the five reads of them and two of the facts below would each say `rule.` besides.
#[derive(Clone, Copy)]
pub struct WorkedRule {
    pub(crate) weights: [i32; MOST_PLACES],
    pub(crate) bound: i32,
    pub(crate) rounds: u32,
    ghost small_weights: { (p : ℕ) → unsigned_abs (slice_index_or weights p (pos 0)) ≤ most_worked_weight },
    ghost small_bound: { unsigned_abs bound ≤ most_worked_bound },
    ghost few_rounds: { rounds ≤ most_rounds },
}
