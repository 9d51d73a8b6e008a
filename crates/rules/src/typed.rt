// A rule as it is typed.
use model::sizes::MOST_PLACES;

// The rule L·m ≤ b: the weight of each place by its number, and the bound. Any numbers go in; `work` says which can be typed.
#[derive(Clone, Copy)]
pub struct TypedRule {
    pub weights: [i32; MOST_PLACES],
    pub bound: i32,
}
