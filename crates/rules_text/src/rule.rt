// What a rules text says, as it is read.
use model::sizes::MOST_PLACES;
use texts::span::Span;

// A rule: its name, the weight of each place by its number, and the bound.
#[derive(Clone, Copy)]
pub struct RuleLine {
    pub name: Span,
    pub weights: [i32; MOST_PLACES],
    pub bound: i32,
}

// The fixed rule, and the others in the order of their lines: rule line r belongs to row r.
#[derive(Drop)]
pub struct RulesText {
    pub fixed: RuleLine,
    pub others: Vec<RuleLine>,
}
