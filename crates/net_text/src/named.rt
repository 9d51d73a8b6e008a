// Places and moves by their names.
use crate::net::{Move, Place};
use texts::names::Named;
use texts::span::Span;

impl Named for Place {
    ghost title = { λ p. p.name };

    fn name(&self) -> Span {
        self.name
    }
}

impl Named for Move {
    ghost title = { λ m. m.name };

    fn name(&self) -> Span {
        self.name
    }
}
