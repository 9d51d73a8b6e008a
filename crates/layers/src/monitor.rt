// The fixed monitor: a layer of one row.
ghost use Rattle.std.specs.Prelude.{◌≡◌, ℕ, Ok, Err};
ghost use Rattle.layers.specs.OnTop.{OnTop};
ghost use Rattle.layers.specs.Piles.{Fresh};
ghost use Rattle.layers.specs.Setting.{SetTo};
ghost use Rattle.model.specs.Layer.{blank, monitor, monitor_answer};
ghost use Rattle.model.specs.Sizes.{monitor_rows};
ghost use Rattle.layers.specs.Rows.{rows_of};
ghost use Rattle.rules.specs.Rules.{rule_of};

use crate::layer::Layer;
use crate::table::Table;
use model::fault::Fault;
use plant::net::Net;
use plant::plant::Plant;
use rules::typed::TypedRule;

// One rule, for as long as the cell runs.
pub type Monitor<P> = Layer<P, Table<1>>;

impl<P: Plant> Monitor<P> {
    // A monitor over the plant, with no rule yet.
    pub fn new(below: P) -> Self
        ensures below { result.below ≡ below }
        ensures blank { rows_of result.rows.rows ≡ (λ r. blank) }
        ensures fresh { Fresh monitor (P.Net.net below) (P.Plant.tokens below) (⟦<Self as Plant>⟧.pile result) }
        ensures on_top { OnTop monitor_rows (P.Net.net below) (⟦<Self as Net>⟧.net result) (P.Plant.tokens below) (⟦<Self as Plant>⟧.tokens result) }
    {
        Self::blank(below)
    }

    // Whether its rule is set.
    pub fn in_use(&self) -> bool
        ensures { result ≡ ((⟦<Self as Plant>⟧.pile self.now).rows 0).in_use }
    {
        self.row_in_use(0)
    }

    // What `set` would answer now.
    pub fn may_set(&self, typed: &TypedRule) -> Result<(), Fault>
        ensures { result ≡ monitor_answer (⟦<Self as Plant>⟧.pile self.now) (rule_of typed.now) }
    {
        self.check_rule(0, typed).map(|_| ())
    }

    // Sets its rule, worked over the plant below, or answers why not; a refused rule changes nothing.
    pub fn set(&mut self, typed: &TypedRule) -> Result<(), Fault>
        ensures answer { result ≡ monitor_answer (⟦<Self as Plant>⟧.pile self.old) (rule_of typed.now) }
        ensures below { self.new.below ≡ self.old.below }
        ensures refused { (f : Fault) → result ≡ Err f → self.new ≡ self.old }
        ensures set { result ≡ Ok tt → SetTo (⟦<Self as Plant>⟧.pile self.old) (⟦<Self as Plant>⟧.pile self.new) 0 (rule_of typed.now) }
        ensures on_top { OnTop monitor_rows (P.Net.net self.new.below) (⟦<Self as Net>⟧.net self.new) (P.Plant.tokens self.new.below) (⟦<Self as Plant>⟧.tokens self.new) }
    {
        self.set_row(0, typed)
    }
}
