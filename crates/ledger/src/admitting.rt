// The setter's call, where a board is the top layer: a rule is admitted to one of its rows.
ghost use Rattle.std.specs.Prelude.{◌≡◌, ℕ, ◌==◌};
ghost use Rattle.model.specs.declared.refusal.Refusal.TheVariants.{GrantsOpen};
ghost use Rattle.model.specs.Plant.{setting_fault, refuse_unless};
ghost use Rattle.model.specs.Ledger.{admit, answer, next};
ghost use Rattle.rules.specs.Rules.{rule_of};
ghost use Rattle.ledger.specs.Values.{value_of};

use crate::ledger::Ledger;
use layers::board::Board;
use model::fault::Fault;
use model::refusal::Refusal;
use plant::plant::Plant;
use rules::typed::TypedRule;

impl<P: Plant> Ledger<Board<P>> {
    // Refused while any grant is open.
    fn check_none_open(&self) -> Result<(), Fault>
        ensures { result ≡ refuse_unless (self.now.grants.total == 0) (setting_fault GrantsOpen) }
    {
        Fault::of_setting(Refusal::GrantsOpen).unless(self.grants.total() == 0)
    }

    // What `admit` would answer now.
    // Kept: this asks and `admit` changes, so that one function of both would have to take the ledger by a mutable reference to ask.
    pub fn may_admit(&self, r: usize, rule: &TypedRule) -> Result<(), Fault>
        ensures { result ≡ answer (value_of self.now) (admit r (rule_of rule.now)) }
    {
        self.check_none_open()?;
        self.pile.may_set(r, rule)
    }

    // Sets the row `r` of the board to the rule, while no grant is open.
    pub fn admit(&mut self, r: usize, rule: &TypedRule) -> Result<(), Fault>
        ensures answer { result ≡ answer (value_of self.old) (admit r (rule_of rule.now)) }
        ensures after { value_of self.new ≡ next (value_of self.old) (admit r (rule_of rule.now)) }
    {
        self.check_none_open()?;
        self.pile.set(r, rule)
    }
}
