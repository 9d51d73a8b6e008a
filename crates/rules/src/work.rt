// Working a typed rule into one that no uncontrollable move raises.
ghost use Rattle.std.specs.Prelude.{◌≡◌};
ghost use Rattle.rules.specs.Rules.{rule_of, answer_of, Works};
ghost use Rattle.rules.specs.Rounding.{OnGround, before_rounds};

use crate::typed::TypedRule;
use crate::worked::WorkedRule;
use model::fault::Fault;
use model::refusal::Refusal;
use model::sizes::MOST_ROUNDS;
use plant::net::Net;

impl TypedRule {
    // The rule before its first round, or 25 where it cannot be typed.
    fn before_rounds<N: Net>(&self, net: &N) -> Result<WorkedRule, Fault>
        ensures answer { answer_of result ≡ before_rounds (N.Net.net net.now) (rule_of self.now) }
        ensures by_ground { OnGround (N.Net.net net.now) (answer_of result) }
    {
        Fault::of_setting(Refusal::NotTyped).unless(self.can_be_typed(net))?;
        Ok(WorkedRule {
            weights: self.weights,
            bound: self.bound,
            rounds: 0,
        })
    }
}

// The rule that the typed one is worked to over the net, or why there is none: 25, 20, 21 or 22.
pub fn work<N: Net>(net: &N, typed: &TypedRule) -> Result<WorkedRule, Fault>
    ensures { Works (N.Net.net net.now) (rule_of typed.now) (answer_of result) }
{
    let mut rule = typed.before_rounds(net)?;
    'rounds: for _ in 0..MOST_ROUNDS {
        let Some(rising) = rule.rising(net) else {
            return Ok(rule);
        };
        let place = rising
            .absorber
            .ok_or(Fault::of_setting(Refusal::NotAbsorbed))?;
        rule = rule.after_round(net, rising.transition, place)?;
    }
    Fault::of_setting(Refusal::TooManyRounds).unless(rule.rising(net).is_none())?;
    Ok(rule)
}
