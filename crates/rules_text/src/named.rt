// Rules by their names.
use crate::rule::RuleLine;
use texts::names::Named;
use texts::span::Span;

impl Named for RuleLine {
    ghost title = { λ r. r.name };

    fn name(&self) -> Span {
        self.name
    }
}
