// Whether the numbers of a rule are small enough, and which rules can be typed.
ghost use Rattle.std.specs.Prelude.{◌≡◌, pos, nat_le, slice_index_or, unsigned_abs};
ghost use Rattle.std.specs.List.{list_all};
ghost use Rattle.model.specs.Rule.{in_range};
ghost use Rattle.model.specs.Working.{ground_only, is_typed};
ghost use Rattle.rules.specs.Rules.{rule_of};

use crate::typed::TypedRule;
use model::sizes::{MOST_BOUND, MOST_PLACES, MOST_WEIGHT, MOST_WORKED_BOUND, MOST_WORKED_WEIGHT};
use plant::net::Net;

// How large the weights of a rule and its bound may be, by their size.
#[derive(Clone, Copy)]
pub(crate) struct Sizes {
    pub weight: u32,
    pub bound: u32,
}

// Of a rule that is typed.
const TYPED: Sizes = Sizes {
    weight: MOST_WEIGHT as u32,
    bound: MOST_BOUND as u32,
};

// Of a rule that is worked.
pub(crate) const WORKED: Sizes = Sizes {
    weight: MOST_WORKED_WEIGHT as u32,
    bound: MOST_WORKED_BOUND as u32,
};

// Whether each of the numbers is at most so large, by its size.
fn all_within(numbers: &[i32], most: u32) -> bool
    ensures { result ≡ list_all (λ z. nat_le (unsigned_abs z) most) numbers.now }
{
    numbers.iter().all(|z| z.unsigned_abs() <= most)
}

// Whether the weight of each ground place and the bound are at most so large.
pub(crate) fn in_range<N: Net>(
    net: &N,
    weights: &[i32; MOST_PLACES],
    bound: i32,
    most: Sizes,
) -> bool
    ensures { result ≡ in_range most.weight most.bound (N.Net.net net.now) (λ p. slice_index_or weights.now p (pos 0)) bound }
{
    all_within(&weights[..net.ground()], most.weight) && bound.unsigned_abs() <= most.bound
}

impl TypedRule {
    // Whether no place beyond the ground places has a weight.
    fn is_on_ground<N: Net>(&self, net: &N) -> bool
        ensures { result ≡ ground_only (N.Net.net net.now) (rule_of self.now) }
    {
        all_within(&self.weights[net.ground()..], 0)
    }

    // Whether the rule is one that can be typed over the net: small weights, on ground places only, and a small bound.
    pub(crate) fn can_be_typed<N: Net>(&self, net: &N) -> bool
        ensures { result ≡ is_typed (N.Net.net net.now) (rule_of self.now) }
    {
        in_range(net, &self.weights, self.bound, TYPED) && self.is_on_ground(net)
    }
}
