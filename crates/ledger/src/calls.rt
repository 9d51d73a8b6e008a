// The calls that move tokens: of drivers, who are granted a move and then commit or cancel it, and of sensors, which report one.
ghost use Rattle.std.specs.Prelude.{◌≡◌, ℕ};
ghost use Rattle.model.specs.Ledger.{grant, commit, cancel, report, answer, next};
ghost use Rattle.ledger.specs.Values.{value_of};

use crate::ledger::Ledger;
use model::fault::Fault;
use plant::plant::Plant;

impl<P: Plant> Ledger<P> {
    // Grants the move `t` to a driver: it begins, and stays open until it is committed or cancelled.
    pub fn grant(&mut self, t: usize) -> Result<(), Fault>
        ensures answer { result ≡ answer (value_of self.old) (grant t) }
        ensures after { value_of self.new ≡ next (value_of self.old) (grant t) }
    {
        self.may_grant(t)?;
        self.pile.begin(t)?;
        self.grants.add(&self.pile, t);
        Ok(())
    }

    // Ends one open grant of the move `t`: it has been made, and finishes.
    // Kept: `cancel` differs in one call of the pile. A shared `end(t, P::finish)` would require of what it is given that it may be called
    // and leaves the net, and tell answer and ledger by what that does: four clauses, where each call would still say its own two.
    pub fn commit(&mut self, t: usize) -> Result<(), Fault>
        ensures answer { result ≡ answer (value_of self.old) (commit t) }
        ensures after { value_of self.new ≡ next (value_of self.old) (commit t) }
    {
        self.check_open(t)?;
        self.pile.finish(t)?;
        self.grants.remove(&self.pile, t);
        Ok(())
    }

    // Ends one open grant of the move `t`: it is not made, and its tokens go back.
    pub fn cancel(&mut self, t: usize) -> Result<(), Fault>
        ensures answer { result ≡ answer (value_of self.old) (cancel t) }
        ensures after { value_of self.new ≡ next (value_of self.old) (cancel t) }
    {
        self.check_open(t)?;
        self.pile.back(t)?;
        self.grants.remove(&self.pile, t);
        Ok(())
    }

    // Enters the uncontrollable move `t`, which has happened: it begins and finishes.
    pub fn report(&mut self, t: usize) -> Result<(), Fault>
        ensures answer { result ≡ answer (value_of self.old) (report t) }
        ensures after { value_of self.new ≡ next (value_of self.old) (report t) }
    {
        self.may_report(t)?;
        self.pile.begin(t)?;
        self.pile.finish(t)
    }
}
