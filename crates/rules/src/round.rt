// One round of working: the rule after it.
ghost use Rattle.std.specs.Prelude.{◌≡◌, ℕ, ◌≤◌, pos, ◌+ℤ◌, ◌-ℤ◌, ◌*ℤ◌, if◌then◌else◌, nat_eq, slice_index_or, unsigned_abs};
ghost use Rattle.model.specs.Sizes.{most_arc};
ghost use Rattle.rules.specs.Rules.{worked_of, answer_of};
ghost use Rattle.rules.specs.Rounding.{absorption_of, after_round, Modest, RoundAt};

use crate::gcd::gcd;
use crate::ranges::{WORKED, in_range};
use crate::worked::WorkedRule;
use model::fault::Fault;
use model::refusal::Refusal;
use model::sizes::MOST_PLACES;
use plant::net::Net;

// What a round does: every weight is multiplied by the factor, then the addend is added to the weight of the place.
#[derive(Clone, Copy)]
pub struct Absorption {
    place: usize,
    factor: i32,
    addend: i32,
    ghost modest: { Modest (record { place = place; factor = factor; addend = addend }) },
}

impl WorkedRule {
    // The round for the move `t`, which raises the rule, and the place `p`, of which it takes more than it gives.
    fn absorption<N: Net>(&self, net: &N, t: usize, p: usize) -> Absorption
        requires { RoundAt (N.Net.net net.now) (worked_of self.now) t p }
        ensures { absorption_of (N.Net.net net.now) (worked_of self.now) t p ≡ record { place = result.place; factor = result.factor; addend = result.addend } }
    {
        let raise = self.raise(net, t) as u32;
        let fall = net.take(p, t) - net.give(p, t);
        let divisor = gcd(raise, fall);
        Absorption {
            place: p,
            factor: (fall / divisor) as i32,
            addend: (raise / divisor) as i32,
        }
    }

    // Every weight times the factor.
    fn scaled(&self, factor: i32) -> [i32; MOST_PLACES]
        requires { unsigned_abs factor ≤ most_arc }
        ensures { (p : ℕ) → slice_index_or result p (pos 0) ≡ factor *ℤ (worked_of self.now).weight p }
    {
        // Kept: a loop, where `map` of the array would make one weight after the other: some 750 instructions a round.
        let mut weights = self.weights;
        'places: for weight in &mut weights {
            *weight = factor * *weight;
        }
        weights
    }

    // The weights after the round.
    fn absorbed_weights(&self, absorption: Absorption) -> [i32; MOST_PLACES]
        ensures { (p : ℕ) → slice_index_or result p (pos 0) ≡ absorption.factor *ℤ (worked_of self.now).weight p +ℤ (if nat_eq p absorption.place then absorption.addend else pos 0) }
    {
        let mut weights = self.scaled(absorption.factor);
        weights[absorption.place] += absorption.addend;
        weights
    }

    // The bound after the round.
    fn absorbed_bound(&self, absorption: Absorption) -> i32
        ensures { result ≡ absorption.factor *ℤ ((worked_of self.now).bound +ℤ pos 1) -ℤ pos 1 }
    {
        absorption.factor * (self.bound + 1) - 1
    }

    // The rule after the round for the move `t` and the place `p`, or 21 where its numbers are too large.
    pub(crate) fn after_round<N: Net>(
        &self,
        net: &N,
        t: usize,
        p: usize,
    ) -> Result<WorkedRule, Fault>
        requires { RoundAt (N.Net.net net.now) (worked_of self.now) t p }
        ensures { answer_of result ≡ after_round (N.Net.net net.now) (worked_of self.now) t p }
    {
        let absorption = self.absorption(net, t, p);
        let weights = self.absorbed_weights(absorption);
        let bound = self.absorbed_bound(absorption);
        let small = in_range(net, &weights, bound, WORKED);
        Fault::of_setting(Refusal::TooLarge).unless(small)?;
        Ok(WorkedRule {
            weights,
            bound,
            rounds: self.rounds + 1,
        })
    }
}
