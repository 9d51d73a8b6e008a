// A bank from the records of a net text.
ghost use Rattle.std.specs.Prelude.{◌≡◌, ℕ, ◌^◌, ◌<◌, ◌≤◌, Bool, false, length, map, slice_index_or, Decides};
ghost use Rattle.std.specs.Fn.{FnReturnsAt};
ghost use Rattle.model.specs.Sizes.{most_places};
ghost use Rattle.bank.specs.Banks.{letter};
ghost use Rattle.bank.specs.Making.{AllSingle, BankText, Makes};

use crate::bank::Bank;
use crate::bits::with_bit;
use formats::kind::Kind;
use model::sizes::MOST_PLACES;
use net_text::net::{NetText, Place};

// The word whose bit `k` tells whether the item `k` passes the test.
fn bits<T, F: Fn(&T) -> bool>(items: &[T], test: F) -> u32
    requires few { length items.now ≤ most_places }
    requires test { F.IsAlwaysCallable test }
    ensures inside { result < 2 ^ length items.now }
    ensures bits { (f : T → Bool) → ((x : T) (b : Bool) → FnReturnsAt F.Fn test x b → b ≡ f x) → (k : ℕ) → letter result k ≡ slice_index_or (map f items.now) k false }
{
    let mut word = 0;
    // Kept: the number of a bit is that of its item, and a `fold` would carry the same word, with the invariant as a clause of its closure.
    for (k, item) in items.iter().enumerate() {
        if test(item) {
            word = with_bit(word, k);
        }
    }
    word
}

// Whether all places have the limit 1 and at most one token.
fn all_single(places: &[Place]) -> bool
    ensures { Decides result (AllSingle places.now) }
{
    places
        .iter()
        .all(|place| place.limit == 1 && place.tokens <= 1)
}

// Whether the kind, the counts and the places are a bank's, and there are no arcs.
fn is_bank(net: &NetText) -> bool
    ensures { Decides result (BankText net.now) }
{
    let count = net.places.len();
    matches!(net.kind, Kind::Bank)
        && count >= 4
        && count <= MOST_PLACES
        && count % 4 == 0
        && net.moves.len() == count
        && all_single(&net.places)
        && net.arcs.is_empty()
}

// The bank that a net text describes; none if it describes no bank.
pub fn make(net: &NetText) -> Option<Bank>
    ensures { Makes net.now result }
{
    if !is_bank(net) {
        return None;
    }
    Some(Bank {
        count: net.places.len(),
        tokens: bits(&net.places, |place| place.tokens == 1),
        letters: bits(&net.moves, |read| read.controllable),
    })
}
