// Setting a row of a layer to a rule.
ghost use Rattle.std.specs.Prelude.{◌≡◌, ℕ, ◌<◌, ◌≤◌, pos, Ok, Err, slice_index_or, unsigned_abs};
ghost use Rattle.layers.specs.OnTop.{OnTop};
ghost use Rattle.layers.specs.Rows.{top_of};
ghost use Rattle.layers.specs.Setting.{Checks, SetTo};
ghost use Rattle.model.specs.Layer.{row_count, top_answer};
ghost use Rattle.model.specs.Rule.{raise as raise_of};
ghost use Rattle.model.specs.Sizes.{most_control_arc};
ghost use Rattle.rules.specs.Rules.{rule_of, worked_of, answer_of};

use crate::layer::Layer;
use crate::table::Table;
use model::fault::Fault;
use model::refusal::Refusal;
use model::sizes::MOST_MOVES;
use plant::net::Net;
use plant::plant::Plant;
use rules::typed::TypedRule;
use rules::work::work;
use rules::worked::WorkedRule;
use std::array;

// By how much each move raises the rule.
fn raises<N: Net>(rule: &WorkedRule, net: &N) -> [i32; MOST_MOVES]
    ensures value { (t : ℕ) → slice_index_or result t (pos 0) ≡ raise_of (N.Net.net net.now) (worked_of rule.now).weight t }
    ensures small { (t : ℕ) → unsigned_abs (slice_index_or result t (pos 0)) ≤ most_control_arc }
{
    array::from_fn(|t| rule.raise(net, t))
}

impl<P: Plant, const N: usize> Layer<P, Table<N>> {
    // Whether the row `r` has a rule; a missing row has none, and a shut layer has no rows.
    pub(crate) fn row_in_use(&self, r: usize) -> bool
        ensures { result ≡ ((⟦<Self as Plant>⟧.pile self.now).rows r).in_use }
    {
        !self.is_shut() && self.rows.in_use(r)
    }

    // The rule that the row `r` would be set to, or why it would not: nothing is changed.
    pub(crate) fn check_rule(&self, r: usize, typed: &TypedRule) -> Result<WorkedRule, Fault>
        ensures { Checks (⟦<Self as Plant>⟧.pile self.now) r (rule_of typed.now) (answer_of result) }
    {
        Fault::of_setting(Refusal::Shut).unless(!self.is_shut())?;
        Fault::of_setting(Refusal::RowInUse).unless(!self.rows.in_use(r))?;
        let rule = work(&self.below, typed)?;
        Fault::of_setting(Refusal::Broken).unless(rule.spare(&self.below) >= 0)?;
        Ok(rule)
    }

    // Sets the row `r` to the rule, or answers why not.
    // Kept: `below` and `refused` stand here, in `Board::set` and in `Monitor::set`: those two are public and promise them to callers, and
    // the check of each knows of this call only what is said here.
    pub(crate) fn set_row(&mut self, r: usize, typed: &TypedRule) -> Result<(), Fault>
        requires { r < row_count (top_of N) }
        ensures answer { result ≡ top_answer (⟦<Self as Plant>⟧.pile self.old) r (rule_of typed.now) }
        ensures below { self.new.below ≡ self.old.below }
        ensures refused { (f : Fault) → result ≡ Err f → self.new ≡ self.old }
        ensures set { result ≡ Ok tt → SetTo (⟦<Self as Plant>⟧.pile self.old) (⟦<Self as Plant>⟧.pile self.new) r (rule_of typed.now) }
        ensures on_top { OnTop (row_count (top_of N)) (P.Net.net self.new.below) (⟦<Self as Net>⟧.net self.new) (P.Plant.tokens self.new.below) (⟦<Self as Plant>⟧.tokens self.new) }
    {
        let rule = self.check_rule(r, typed)?;
        let raises = raises(&rule, &self.below);
        let free = rule.spare(&self.below) as u32;
        self.rows.set_rule(r, &raises, free);
        Ok(())
    }
}
