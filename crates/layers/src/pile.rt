// The pile of a cell: a board over a fixed monitor over the plant.
ghost use Rattle.std.specs.Prelude.{◌≡◌, ℕ, IfOk};
ghost use Rattle.layers.specs.Piles.{new_pile};
ghost use Rattle.layers.specs.Setting.{plain};
ghost use Rattle.layers.specs.Stacking.{Stacked};
ghost use Rattle.model.specs.Layer.{monitor, monitor_answer};
ghost use Rattle.rules.specs.Rules.{rule_of};

use crate::board::Board;
use crate::monitor::Monitor;
use model::fault::Fault;
use plant::plant::Plant;
use rules::typed::TypedRule;

// A board without rules over a monitor with the fixed rule, or why the fixed rule cannot be set.
pub fn build<P: Plant + Drop>(plant: P, fixed: &TypedRule) -> Result<Board<Monitor<P>>, Fault>
    ensures answer { plain result ≡ monitor_answer (new_pile monitor (P.Net.net plant) (P.Plant.tokens plant)) (rule_of fixed.now) }
    ensures kept { IfOk result (λ b. b.below.below ≡ plant) }
    ensures pile { IfOk result (λ b. Stacked (P.Net.net plant) (P.Plant.tokens plant) (rule_of fixed.now) (⟦<Board<Monitor<P>> as Plant>⟧.pile b)) }
{
    let mut monitor = Monitor::new(plant);
    monitor.set(fixed)?;
    Ok(Board::new(monitor))
}
