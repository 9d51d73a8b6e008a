// Whether the records of places are ones that a plant can have.
ghost use Rattle.std.specs.Prelude.{◌≡◌, vec_items};
ghost use Rattle.formats.specs.Words.{all};
ghost use Rattle.net_text.specs.Filled.{is_filled};

use crate::net::{NetText, Place};
use model::sizes::MOST_LIMIT;

impl Place {
    // Whether the limit is one that a place may have and the tokens are at most the limit.
    pub fn is_filled(&self) -> bool
        ensures { result ≡ is_filled self.now }
    {
        1 <= self.limit && self.limit <= MOST_LIMIT && self.tokens <= self.limit
    }
}

impl NetText {
    // Whether that is so of all places.
    pub fn all_filled(&self) -> bool
        ensures { result ≡ all is_filled (vec_items self.now.places) }
    {
        self.places.iter().all(|place| place.is_filled())
    }
}
