// The reading part of a net.
ghost use Rattle.std.specs.Prelude.{◌≡◌, ℕ, ◌≤◌};
ghost use Rattle.model.specs.Net.{Net as NetValue, Ranges};
ghost use Rattle.model.specs.Plant.{known, refuse_at, fault_at, ◌else_by◌};

use model::fault::{Fault, Spot};
use model::refusal::Refusal;

// What is told of a net. Places and moves count from 0; the numbers of a missing one are 0, and a missing move is uncontrollable.
pub trait Net {
    // the net, by value
    ghost net: { Self → NetValue };

    // The ground places, which the net text names.
    fn ground(&self) -> usize
        ensures { result ≡ (net self.now).ground_places };

    // All places: the ground places, then the control places.
    fn places(&self) -> usize
        ensures { result ≡ (net self.now).places };

    fn moves(&self) -> usize
        ensures { result ≡ (net self.now).moves };

    fn controllable(&self, t: usize) -> bool
        ensures { result ≡ (net self.now).controllable t };

    // What the move `t` takes from the place `p` when it begins.
    fn take(&self, p: usize, t: usize) -> u32
        ensures { result ≡ (net self.now).take p t };

    // What the move `t` gives to the place `p` when it finishes.
    fn give(&self, p: usize, t: usize) -> u32
        ensures { result ≡ (net self.now).give p t };

    // The most tokens that the place `p` holds.
    fn limit(&self, p: usize) -> u32
        ensures { result ≡ (net self.now).limit p };

    // Of a control place its layer and its row there; 0 on ground places.
    fn layer(&self, p: usize) -> usize
        ensures { result ≡ (net self.now).layer p };

    fn row(&self, p: usize) -> usize
        ensures { result ≡ (net self.now).row p };

    // The place `p`, with its layer and its row.
    final fn spot(&self, p: usize) -> Spot
        ensures { result ≡ record { place = p; layer = (net self.now).layer p; row = (net self.now).row p } }
    {
        Spot {
            place: p,
            layer: self.layer(p),
            row: self.row(p),
        }
    }

    // Refused if there is no move `t`.
    final fn known(&self, t: usize) -> Result<(), Fault>
        ensures { result ≡ known (net self.now) t }
    {
        Fault::of_move(Refusal::NoMove, t).unless(t < self.moves())
    }

    // Refused for the move `t` at the place that was found, if one was.
    final fn refuse_at(&self, refusal: Refusal, t: usize, found: Option<usize>) -> Result<(), Fault>
        ensures { result ≡ refuse_at (fault_at (net self.now) refusal t) found }
    {
        found.map_or(Ok(()), |p| Err(Fault::at(refusal, t, self.spot(p))))
    }

    // The answer to a question about the move `t`: refused if there is no such move, else at the place that was found, if one was.
    final fn answer_at(&self, refusal: Refusal, t: usize, found: Option<usize>) -> Result<(), Fault>
        ensures { result ≡ (known (net self.now) t else_by refuse_at (fault_at (net self.now) refusal t) found) }
    {
        self.known(t)?;
        self.refuse_at(refusal, t, found)
    }

    ghost sound: { (s : Self) → Ranges (net s) };

    // each layer has places of its own, after those below it
    ghost layered: { (s : Self) (p : ℕ) → (net s).layer p ≤ p };
}
