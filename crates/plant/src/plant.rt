// What moves: a net with tokens.
ghost use Rattle.std.specs.Prelude.{◌≡◌, ℕ, ◌<◌, ◌≤◌, if◌then◌else◌};
ghost use Rattle.plant.specs.Searches.{Gives};
ghost use Rattle.model.specs.Plant.{accepted, short_place, over_place, begin_answer, finish_answer, back_answer, begun, finished, gone_back};
ghost use Rattle.model.specs.Layer.{Pile, pile_net, pile_free, pile_begun, pile_finished, pile_gone_back};

use crate::find::lowest;
use crate::net::Net;
use model::fault::Fault;
use model::refusal::Refusal;

pub trait Plant: Net {
    // the tokens now at each place
    ghost tokens: { Self → ℕ → ℕ };

    // the plant with its layers, by value: a bare plant alone, or what the top layer holds
    ghost pile: { Self → Pile };

    // The tokens now at the place `p`.
    fn free(&self, p: usize) -> u32
        ensures { result ≡ tokens self.now p };

    // The lowest place that is short of what the move `t` takes there.
    // This search, `over_by_give` and `over_by_take` go over all places; a plant that knows where to look answers them faster.
    fn short_place(&self, t: usize) -> Option<usize>
        ensures { result ≡ short_place (Self.Net.net self.now) (tokens self.now) t }
    {
        lowest(self.places(), |p| self.free(p) < self.take(p, t))
    }

    // The lowest place that has no room for what `added` says of it.
    // Kept: it asks for a type of known size, and the next two search by themselves: a method with a type parameter, or one that calls
    // it, would leave no `dyn Plant`.
    fn over_place<F: Fn(usize) -> u32>(&self, added: F) -> Option<usize>
    where
        Self: Sized,
        requires { (p : ℕ) → p < (Self.Net.net self.now).places → F.pre added p }
        ensures { (f : ℕ → ℕ) → Gives (F.post added) (Self.Net.net self.now).places f → result ≡ over_place (Self.Net.net self.now) (tokens self.now) f }
    {
        lowest(self.places(), |p| self.limit(p) - self.free(p) < added(p))
    }

    // The lowest place that has no room for what the move `t` gives there.
    fn over_by_give(&self, t: usize) -> Option<usize>
        ensures { result ≡ over_place (Self.Net.net self.now) (tokens self.now) (λ p. (Self.Net.net self.now).give p t) }
    {
        lowest(
            self.places(),
            |p| self.limit(p) - self.free(p) < self.give(p, t),
        )
    }

    // The lowest place that has no room for what the move `t` takes there.
    fn over_by_take(&self, t: usize) -> Option<usize>
        ensures { result ≡ over_place (Self.Net.net self.now) (tokens self.now) (λ p. (Self.Net.net self.now).take p t) }
    {
        lowest(
            self.places(),
            |p| self.limit(p) - self.free(p) < self.take(p, t),
        )
    }

    // What `begin` would answer now.
    fn may_begin(&self, t: usize) -> Result<(), Fault>
        ensures { result ≡ begin_answer (Self.Net.net self.now) (tokens self.now) t }
    {
        self.known(t)?;
        self.refuse_at(Refusal::Short, t, self.short_place(t))
    }

    // What `finish` would answer now.
    fn may_finish(&self, t: usize) -> Result<(), Fault>
        ensures { result ≡ finish_answer (Self.Net.net self.now) (tokens self.now) t }
    {
        self.known(t)?;
        self.refuse_at(Refusal::OverLimit, t, self.over_by_give(t))
    }

    // What `back` would answer now.
    fn may_back(&self, t: usize) -> Result<(), Fault>
        ensures { result ≡ back_answer (Self.Net.net self.now) (tokens self.now) t }
    {
        self.known(t)?;
        self.refuse_at(Refusal::OverLimit, t, self.over_by_take(t))
    }

    // Takes the tokens of the move `t` from its places, or answers at which place they are short.
    fn begin(&mut self, t: usize) -> Result<(), Fault>
        ensures answer { result ≡ begin_answer (Self.Net.net self.old) (tokens self.old) t }
        ensures same { Self.Net.net self.new ≡ Self.Net.net self.old }
        ensures after { tokens self.new ≡ begun (Self.Net.net self.old) (tokens self.old) t }
        ensures whole { pile self.new ≡ (if accepted result then pile_begun (pile self.old) t else pile self.old) };

    // Gives the tokens of the move `t` to its places, or answers which place would go over its limit.
    fn finish(&mut self, t: usize) -> Result<(), Fault>
        ensures answer { result ≡ finish_answer (Self.Net.net self.old) (tokens self.old) t }
        ensures same { Self.Net.net self.new ≡ Self.Net.net self.old }
        ensures after { tokens self.new ≡ finished (Self.Net.net self.old) (tokens self.old) t }
        ensures whole { pile self.new ≡ (if accepted result then pile_finished (pile self.old) t else pile self.old) };

    // Gives back what `begin` of the move `t` takes, or answers which place would go over its limit.
    fn back(&mut self, t: usize) -> Result<(), Fault>
        ensures answer { result ≡ back_answer (Self.Net.net self.old) (tokens self.old) t }
        ensures same { Self.Net.net self.new ≡ Self.Net.net self.old }
        ensures after { tokens self.new ≡ gone_back (Self.Net.net self.old) (tokens self.old) t }
        ensures whole { pile self.new ≡ (if accepted result then pile_gone_back (pile self.old) t else pile self.old) };

    ghost stacked: { (s : Self) → (pile_net (pile s) ≡ Self.Net.net s) × (pile_free (pile s) ≡ tokens s) };

    ghost within: { (s : Self) (p : ℕ) → tokens s p ≤ (Self.Net.net s).limit p };
}
