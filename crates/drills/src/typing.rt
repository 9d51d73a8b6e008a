// Typed rules, written short.
use rules::typed::TypedRule;
use std::array;

// The rule that gives the first places these weights, and 0 to the others.
pub fn typed(front: &[i32], bound: i32) -> TypedRule {
    TypedRule {
        weights: array::from_fn(|p| front.get(p).copied().unwrap_or(0)),
        bound,
    }
}
