// What a move takes from a place when it begins, and gives to it when it finishes.
ghost use Rattle.std.specs.Prelude.{◌≡◌, ◌+◌, ◌-◌, ◌≤◌};
ghost use Rattle.model.specs.Sizes.{most_arc, most_limit};

use net_text::net::Arc;

#[derive(Clone, Copy)]
pub(crate) struct Cell {
    pub(crate) take: u8,
    pub(crate) give: u8,
}

impl Cell {
    // Where there is no arc.
    pub(crate) const NONE: Cell = Cell { take: 0, give: 0 };

    // As the record of the arc says.
    pub(crate) fn of(arc: &Arc) -> Cell
        requires { (arc.now.take ≤ most_arc) × (arc.now.give ≤ most_arc) }
        ensures { result ≡ record { take = arc.now.take; give = arc.now.give } }
    {
        Cell {
            take: arc.take as u8,
            give: arc.give as u8,
        }
    }

    // Kept: three changes, since a call of the plant passes one by its name, and so these say which field is meant and which way.
    // One `plus(number, tokens)` for the last two would leave the field to a closure at each call.

    // So many tokens less what is taken.
    pub(crate) fn taken(self, tokens: u32) -> u32
        requires { self.take ≤ tokens }
        ensures { result ≡ tokens - self.take }
    {
        tokens - u32::from(self.take)
    }

    // So many tokens and what is given.
    pub(crate) fn given(self, tokens: u32) -> u32
        requires { tokens ≤ most_limit }
        ensures { result ≡ tokens + self.give }
    {
        tokens + u32::from(self.give)
    }

    // So many tokens and what was taken.
    pub(crate) fn returned(self, tokens: u32) -> u32
        requires { tokens ≤ most_limit }
        ensures { result ≡ tokens + self.take }
    {
        tokens + u32::from(self.take)
    }
}
