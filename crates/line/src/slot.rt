// One place of the line.
ghost use Rattle.std.specs.Prelude.{◌≡◌, ◌==◌, ◌+◌, ◌-◌, ◌<◌, ◌≤◌};

use net_text::net::Place;

#[derive(Clone, Copy)]
pub(crate) struct Slot {
    pub(crate) limit: u32,
    pub(crate) tokens: u32,
}

impl Slot {
    // Where there is no place.
    pub(crate) const NONE: Slot = Slot {
        limit: 0,
        tokens: 0,
    };

    // As the record of the place says.
    pub(crate) fn of(place: &Place) -> Slot
        ensures { result ≡ record { limit = place.now.limit; tokens = place.now.tokens } }
    {
        Slot {
            limit: place.limit,
            tokens: place.tokens,
        }
    }

    pub(crate) fn is_full(&self) -> bool
        ensures { result ≡ (self.now.tokens == self.now.limit) }
    {
        self.tokens == self.limit
    }

    // Takes one token.
    // Kept: this and `raise` differ in the sign, and so in what they require: one `change(by: i32)` would require both, each where it
    // applies, and make signed numbers of the tokens and back.
    pub(crate) fn lower(&mut self)
        requires { 1 ≤ self.old.tokens }
        ensures { self.new ≡ record { limit = self.old.limit; tokens = self.old.tokens - 1 } }
    {
        self.tokens -= 1;
    }

    // Gives one token.
    pub(crate) fn raise(&mut self)
        requires { self.old.tokens < self.old.limit }
        ensures { self.new ≡ record { limit = self.old.limit; tokens = self.old.tokens + 1 } }
    {
        self.tokens += 1;
    }
}
