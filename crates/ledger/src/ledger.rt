// A ledger on any pile.
ghost use Rattle.std.specs.Prelude.{◌≡◌, ℕ, ◌*◌, ◌<◌, ◌≤◌, true, List};
ghost use Rattle.model.specs.Ledger.{Call, new_ledger, net_under, free_under, taken, marking, run};
ghost use Rattle.model.specs.Layer.{InForce, Built};
ghost use Rattle.ledger.specs.Grants.{Tallied, opened};
ghost use Rattle.ledger.specs.Calls.{Promised};

use crate::grants::Grants;
use plant::plant::Plant;

// A pile, and the grants that are open on it: at most 200 in all.
#[derive(Drop)]
pub struct Ledger<P: Plant> {
    pub(crate) pile: P,
    pub(crate) grants: Grants,
    ghost tallied: { Tallied (P.Net.net pile) grants },
}

impl<P: Plant> Ledger<P> {
    ghost use Rattle.ledger.specs.Values.{value_of};

    // A ledger on the pile, with no open grants. If the pile is one that can be built, the promise holds after every list of calls.
    pub fn new(pile: P) -> Self
        ensures new { value_of result ≡ new_ledger (P.Plant.pile pile) }
        ensures promise { (rs : List InForce) → Built (P.Plant.pile pile) rs → (cs : List Call) → Promised (P.Plant.pile pile) rs cs (run (value_of result) cs) }
    {
        Ledger {
            pile,
            grants: Grants::none(),
        }
    }

    // The open grants of the move `t`: of a missing or an uncontrollable one there are none.
    pub fn open(&self, t: usize) -> u32
        ensures counted { result ≡ (value_of self.now).opened t }
        ensures granted { let n = net_under (value_of self.now) in 0 < result → (t < n.moves) × (n.controllable t ≡ true) }
        ensures missing { (net_under (value_of self.now)).moves ≤ t → result ≡ 0 }
    {
        self.grants.of(t)
    }

    // The marking of the place `p`: its free tokens, and those that open grants have taken from it.
    pub fn marking(&self, p: usize) -> u32
        ensures { let l = value_of self.now in result ≡ marking (net_under l) (free_under l) l.opened p }
    {
        self.pile.free(p) + self.taken(p)
    }

    // What the open grants have taken from the place `p`.
    fn taken(&self, p: usize) -> u32
        ensures { result ≡ taken (P.Net.net self.now.pile) (opened self.now.grants.counts) p }
    {
        (0..self.pile.moves()).map(|t| self.taken_by(p, t)).sum()
    }

    // What the open grants of the move `t` have taken from the place `p`.
    fn taken_by(&self, p: usize, t: usize) -> u32
        ensures { result ≡ opened self.now.grants.counts t * (P.Net.net self.now.pile).take p t }
    {
        self.grants.of(t) * self.pile.take(p, t)
    }

    // The free tokens of the place `p`.
    pub fn free(&self, p: usize) -> u32
        ensures { result ≡ free_under (value_of self.now) p }
    {
        self.pile.free(p)
    }
}
