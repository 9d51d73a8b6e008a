// The slip: what a driver holds of a grant, until the ledger gets it back.
ghost use Rattle.std.specs.Prelude.{◌≡◌, ℕ, false, true, IfOk, if◌then◌else◌};
ghost use Rattle.model.specs.Ledger.{grant, commit, cancel, answer, next};
ghost use Rattle.layers.specs.Setting.{plain};
ghost use Rattle.ledger.specs.Values.{value_of};

use crate::ledger::Ledger;
use model::fault::Fault;
use plant::plant::Plant;

// A slip for one open grant of a move. It may be let go only when it is spent, and only `commit_slip` and `cancel_slip` spend it: so
// on each way out the driver commits or cancels.
// Kept: it is decided that a slip's `drop` requires that it be spent, and only a flag can say so of a slip that is let go.
pub struct Slip {
    transition: usize,
    spent: bool,
}

impl Drop for Slip {
    fn drop(self)
        requires { self.spent ≡ true }
    {
        let Slip {
            transition: _,
            spent: _,
        } = self;
    }
}

impl Slip {
    // The move that the slip is for, and the slip again.
    pub fn which(self) -> (usize, Slip)
        ensures which { result.0 ≡ self.transition }
        ensures again { result.1 ≡ self }
    {
        (self.transition, self)
    }

    // Uses the slip up.
    fn spend(mut self) -> usize
        ensures { result ≡ self.transition }
    {
        self.spent = true;
        self.transition
    }
}

impl<P: Plant> Ledger<P> {
    // Grants the move `t` to a driver, who gets a slip for it.
    pub fn claim(&mut self, t: usize) -> Result<Slip, Fault>
        ensures answer { plain result ≡ answer (value_of self.old) (grant t) }
        ensures after { value_of self.new ≡ next (value_of self.old) (grant t) }
        ensures slip { IfOk result (λ s. s.transition ≡ t) }
        ensures unspent { IfOk result (λ s. s.spent ≡ false) }
    {
        self.grant(t)?;
        Ok(Slip {
            transition: t,
            spent: false,
        })
    }

    // Commits the grant of the slip, which is used up even where the commit is refused.
    pub fn commit_slip(&mut self, slip: Slip) -> Result<(), Fault>
        ensures answer { result ≡ answer (value_of self.old) (commit slip.transition) }
        ensures after { value_of self.new ≡ next (value_of self.old) (commit slip.transition) }
    {
        self.commit(slip.spend())
    }

    // Cancels the grant of the slip, which is used up even where the cancel is refused.
    pub fn cancel_slip(&mut self, slip: Slip) -> Result<(), Fault>
        ensures answer { result ≡ answer (value_of self.old) (cancel slip.transition) }
        ensures after { value_of self.new ≡ next (value_of self.old) (cancel slip.transition) }
    {
        self.cancel(slip.spend())
    }

    // A driver's move from claim to end: it is committed if it was made, else cancelled.
    pub fn settle(&mut self, slip: Slip, made: bool) -> Result<(), Fault>
        ensures answer { result ≡ answer (value_of self.old) (if made then commit slip.transition else cancel slip.transition) }
        ensures after { value_of self.new ≡ next (value_of self.old) (if made then commit slip.transition else cancel slip.transition) }
    {
        if made {
            self.commit_slip(slip)
        } else {
            self.cancel_slip(slip)
        }
    }
}
