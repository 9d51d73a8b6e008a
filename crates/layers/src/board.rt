// The board: a layer of twelve rows.
ghost use Rattle.std.specs.Prelude.{◌≡◌, ℕ, Ok, Err};
ghost use Rattle.layers.specs.OnTop.{OnTop};
ghost use Rattle.layers.specs.Piles.{Fresh};
ghost use Rattle.layers.specs.Setting.{SetTo};
ghost use Rattle.layers.specs.Rows.{rows_of};
ghost use Rattle.model.specs.Layer.{blank, board, board_answer};
ghost use Rattle.model.specs.Sizes.{board_rows};
ghost use Rattle.rules.specs.Rules.{rule_of};

use crate::layer::Layer;
use crate::table::Table;
use model::fault::Fault;
use model::refusal::Refusal;
use model::sizes::BOARD_ROWS;
use plant::net::Net;
use plant::plant::Plant;
use rules::typed::TypedRule;

// Up to twelve rules, each set in a row of its own.
pub type Board<P> = Layer<P, Table<BOARD_ROWS>>;

impl<P: Plant> Board<P> {
    // A board over the plant, with no rules yet.
    pub fn new(below: P) -> Self
        ensures below { result.below ≡ below }
        ensures blank { rows_of result.rows.rows ≡ (λ r. blank) }
        ensures fresh { Fresh board (P.Net.net below) (P.Plant.tokens below) (⟦<Self as Plant>⟧.pile result) }
        ensures on_top { OnTop board_rows (P.Net.net below) (⟦<Self as Net>⟧.net result) (P.Plant.tokens below) (⟦<Self as Plant>⟧.tokens result) }
    {
        Self::blank(below)
    }

    // Whether the row `r` has a rule; a missing row has none.
    pub fn in_use(&self, r: usize) -> bool
        ensures { result ≡ ((⟦<Self as Plant>⟧.pile self.now).rows r).in_use }
    {
        self.row_in_use(r)
    }

    // What `set` would answer now.
    pub fn may_set(&self, r: usize, typed: &TypedRule) -> Result<(), Fault>
        ensures { result ≡ board_answer (⟦<Self as Plant>⟧.pile self.now) r (rule_of typed.now) }
    {
        Fault::of_setting(Refusal::NoRow).unless(r < BOARD_ROWS)?;
        self.check_rule(r, typed).map(|_| ())
    }

    // Sets the row `r` to the rule, worked over the plant below, or answers why not; a refused rule changes nothing.
    pub fn set(&mut self, r: usize, typed: &TypedRule) -> Result<(), Fault>
        ensures answer { result ≡ board_answer (⟦<Self as Plant>⟧.pile self.old) r (rule_of typed.now) }
        ensures below { self.new.below ≡ self.old.below }
        ensures refused { (f : Fault) → result ≡ Err f → self.new ≡ self.old }
        ensures set { result ≡ Ok tt → SetTo (⟦<Self as Plant>⟧.pile self.old) (⟦<Self as Plant>⟧.pile self.new) r (rule_of typed.now) }
        ensures on_top { OnTop board_rows (P.Net.net self.new.below) (⟦<Self as Net>⟧.net self.new) (P.Plant.tokens self.new.below) (⟦<Self as Plant>⟧.tokens self.new) }
    {
        Fault::of_setting(Refusal::NoRow).unless(r < BOARD_ROWS)?;
        self.set_row(r, typed)
    }
}
