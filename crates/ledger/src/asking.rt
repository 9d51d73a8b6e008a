// What the calls of a ledger would answer now: the checks of each in their order. A question changes nothing.
ghost use Rattle.std.specs.Prelude.{◌≡◌, ℕ, ◌<◌, not};
ghost use Rattle.model.specs.declared.refusal.Refusal.TheVariants.{Controllable};
ghost use Rattle.model.specs.Ledger.{grant, commit, cancel, report, answer, crowded, crowded_place, room_answer, grant_checks, is_open};
ghost use Rattle.model.specs.Plant.{fault_of, known, refuse_unless, ◌else_by◌};
ghost use Rattle.ledger.specs.Grants.{opened};
ghost use Rattle.ledger.specs.Values.{value_of};

use crate::ledger::Ledger;
use model::fault::Fault;
use model::refusal::Refusal;
use model::sizes::MOST_OPEN;
use plant::find::lowest;
use plant::plant::Plant;

impl<P: Plant> Ledger<P> {
    // The checks of a grant before any place is looked at.
    fn check_grant(&self, t: usize) -> Result<(), Fault>
        ensures { result ≡ grant_checks (P.Net.net self.now.pile) (opened self.now.grants.counts) t }
    {
        self.pile.known(t)?;
        Fault::of_move(Refusal::Uncontrollable, t).unless(self.pile.controllable(t))?;
        Fault::of_move(Refusal::TooManyOpen, t).unless(self.grants.total() < MOST_OPEN)
    }

    // Refused for a missing move, and if no grant of the move is open.
    pub(crate) fn check_open(&self, t: usize) -> Result<(), Fault>
        ensures { result ≡ (known (P.Net.net self.now.pile) t else_by is_open (opened self.now.grants.counts) t) }
    {
        self.pile.known(t)?;
        Fault::of_move(Refusal::NotOpen, t).unless(0 < self.grants.of(t))
    }

    // Whether the place has no room for the move, were it and all open grants settled either way.
    fn is_crowded(&self, p: usize, t: usize) -> bool
        requires { p < (P.Net.net self.now.pile).places }
        ensures { result ≡ crowded (P.Net.net self.now.pile) (P.Plant.tokens self.now.pile) (opened self.now.grants.counts) t p }
    {
        let take = u64::from(self.pile.take(p, t));
        let most = take.max(u64::from(self.pile.give(p, t)));
        let limit = u64::from(self.pile.limit(p));
        let free = u64::from(self.pile.free(p));
        limit + take < free + most + u64::from(self.grants.reserved(p))
    }

    // The lowest place that has no room for the move.
    fn crowded_place(&self, t: usize) -> Option<usize>
        ensures { result ≡ crowded_place (P.Net.net self.now.pile) (P.Plant.tokens self.now.pile) (opened self.now.grants.counts) t }
    {
        lowest(self.pile.places(), |p| self.is_crowded(p, t))
    }

    // Refused at the lowest place that has no room for the move.
    fn check_room(&self, t: usize) -> Result<(), Fault>
        ensures { result ≡ room_answer (P.Net.net self.now.pile) (P.Plant.tokens self.now.pile) (opened self.now.grants.counts) t }
    {
        self.pile
            .refuse_at(Refusal::NoRoom, t, self.crowded_place(t))
    }

    // What `grant` would answer now.
    pub fn may_grant(&self, t: usize) -> Result<(), Fault>
        ensures { result ≡ answer (value_of self.now) (grant t) }
    {
        self.check_grant(t)?;
        self.pile.may_begin(t)?;
        self.check_room(t)
    }

    // What `commit` would answer now.
    pub fn may_commit(&self, t: usize) -> Result<(), Fault>
        ensures { result ≡ answer (value_of self.now) (commit t) }
    {
        self.check_open(t).and_then(|()| self.pile.may_finish(t))
    }

    // What `cancel` would answer now.
    pub fn may_cancel(&self, t: usize) -> Result<(), Fault>
        ensures { result ≡ answer (value_of self.now) (cancel t) }
    {
        self.check_open(t).and_then(|()| self.pile.may_back(t))
    }

    // What `report` would answer now.
    pub fn may_report(&self, t: usize) -> Result<(), Fault>
        ensures { result ≡ answer (value_of self.now) (report t) }
    {
        self.pile.known(t)?;
        Fault::of_move(Refusal::Controllable, t).unless(!self.pile.controllable(t))?;
        self.pile.may_begin(t)?;
        self.check_room(t)
    }
}
