// What a worked rule tells: its numbers, by how much a move raises it, and how much a plant's tokens leave of its bound.
ghost use Rattle.std.specs.Prelude.{◌≡◌, ℕ, ◌*◌, ◌<◌, ◌≤◌, ℤ, ◌-ℤ◌, ◌*ℤ◌, unsigned_abs};
ghost use Rattle.model.specs.Sizes.{most_places, most_arc, most_limit, most_worked_weight};
ghost use Rattle.model.specs.Net.{signed_sum, incidence as incidence_of};
ghost use Rattle.model.specs.Rule.{raise as raise_of, weighted_free};
ghost use Rattle.rules.specs.Rules.{worked_of};
ghost use Rattle.plant.specs.Searches.{Gives};
ghost use Rattle.rules.specs.Weighing.{Limited};

use crate::worked::WorkedRule;
use plant::net::Net;
use plant::plant::Plant;

// What the move `t` gives to the ground place `p`, less what it takes.
fn incidence<N: Net>(net: &N, p: usize, t: usize) -> i32
    requires { p < (N.Net.net net.now).ground_places }
    ensures value { result ≡ incidence_of (N.Net.net net.now) p t }
    ensures small { unsigned_abs result ≤ most_arc }
{
    net.give(p, t) as i32 - net.take(p, t) as i32
}

impl WorkedRule {
    // The weight of the place `p`.
    pub fn weight(&self, p: usize) -> i32
        ensures { result ≡ (worked_of self.now).weight p }
    {
        self.weights.get(p).copied().unwrap_or(0)
    }

    pub fn bound(&self) -> i32
        ensures { result ≡ (worked_of self.now).bound }
    {
        self.bound
    }

    // How many rounds changed the rule.
    pub fn rounds(&self) -> u32
        ensures { result ≡ (worked_of self.now).rounds }
    {
        self.rounds
    }

    // The sum over the ground places of their weight times what `value` gives of each.
    fn weighted_by<F: Fn(usize) -> i32>(&self, ground: usize, value: F) -> i32
        requires few { ground ≤ most_places }
        requires callable { (p : ℕ) → p < ground → F.pre value p }
        requires limited { Limited (F.post value) ground }
        ensures small { unsigned_abs result ≤ most_places * (most_worked_weight * most_limit) }
        ensures value { (f : ℕ → ℤ) → Gives (F.post value) ground f → result ≡ signed_sum ground (λ p. (worked_of self.now).weight p *ℤ f p) }
    {
        // Kept: the weights by their places, which are all there; `weight` would ask that of each, and a round of many places would
        // take twice the time.
        (0..ground).map(|p| self.weights[p] * value(p)).sum()
    }

    // By how much the move `t` raises the weighted sum of the tokens.
    pub fn raise<N: Net>(&self, net: &N, t: usize) -> i32
        ensures { result ≡ raise_of (N.Net.net net.now) (worked_of self.now).weight t }
    {
        self.weighted_by(net.ground(), |p| incidence(net, p, t))
    }

    // The weighted sum of the tokens now in the plant.
    fn weighted<P: Plant>(&self, plant: &P) -> i32
        ensures small { unsigned_abs result ≤ most_places * (most_worked_weight * most_limit) }
        ensures value { result ≡ weighted_free (P.Net.net plant.now) (worked_of self.now).weight (P.Plant.tokens plant.now) }
    {
        self.weighted_by(plant.ground(), |p| plant.free(p) as i32)
    }

    // How far the weighted sum of the tokens now in the plant is below the bound; negative where it is above.
    pub fn spare<P: Plant>(&self, plant: &P) -> i32
        ensures { result ≡ (worked_of self.now).bound -ℤ weighted_free (P.Net.net plant.now) (worked_of self.now).weight (P.Plant.tokens plant.now) }
    {
        self.bound - self.weighted(plant)
    }
}
