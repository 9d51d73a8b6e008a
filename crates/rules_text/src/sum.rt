// The reader of a sum: the weights that it gives to the places.
ghost use Rattle.std.specs.Prelude.{◌≡◌, ℕ, ◌+◌, ◌≤◌, ◌*◌, nat_le, ◌+ℤ◌, unsigned_abs};
ghost use Rattle.model.specs.Sizes.{most_weight};
ghost use Rattle.formats.specs.NetText.{place_names};
ghost use Rattle.formats.specs.Sums.{with_sign};
ghost use Rattle.rules_text.specs.Sums.{SumRead};

use crate::part::{Next, SumReader, next_at};
use formats::fault::TextFault;
use model::refusal::Refusal;
use model::sizes::{MOST_PLACES, MOST_WEIGHT};

// A weight with one part more.
fn added(weight: i32, number: u32, minus: bool) -> i32
    requires weight_bound { unsigned_abs weight ≤ most_weight }
    requires number_bound { number ≤ 99 }
    ensures value { result ≡ weight +ℤ with_sign minus number }
    ensures within { unsigned_abs result ≤ 2 * most_weight }
{
    let more = number as i32;
    if minus { weight - more } else { weight + more }
}

fn is_weight(weight: i32) -> bool
    ensures { result ≡ nat_le (unsigned_abs weight) most_weight }
{
    -MOST_WEIGHT <= weight && weight <= MOST_WEIGHT
}

impl SumReader<'_> {
    // The weights of the sum, or the first thing that is wrong with it from the left.
    // Kept: an iterator over the parts would move the same position and sign, and would have to hold a wrong sign back until the
    // part before it, which ends there, has been weighed.
    pub(crate) fn read_sum(&self) -> Result<[i32; MOST_PLACES], TextFault>
        ensures { SumRead (place_names self.now.net.now) self.now.at.line self.now.byte self.now.sum.now result }
    {
        let mut weights = [0; MOST_PLACES];
        let mut minus = matches!(next_at(self.sum, 0), Next::Minus);
        let mut start = usize::from(minus);
        'parts: loop {
            let term = self.read_term(start)?;
            let weight = added(weights[term.place], term.number, minus);
            self.at
                .check(is_weight(weight), Refusal::Sum, self.byte + term.name)?;
            weights[term.place] = weight;
            match next_at(self.sum, term.end) {
                Next::Plus => minus = false,
                Next::Minus => minus = true,
                Next::Other | Next::Times => {
                    return Err(self.at.fault(Refusal::Sum, self.byte + term.end));
                }
                Next::End => return Ok(weights),
            }
            start = term.end + 1;
        }
    }
}
