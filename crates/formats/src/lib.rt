#![tactic(auto)]

ghost use Rattle.formats.specs.Laws.{NetExact, NetRefusals, NetDecided, RulesExact, RulesRefusals, RulesDecided};
ghost use Rattle.formats.specs.Samples.{NetSamples, NumbersInOrder, RulesSamples};
ghost use Rattle.formats.specs.Sums.{SumExact, SumRefusals, WeightPush, WeightsIn};

pub mod fault;
pub mod kind;

// A net text is read as x just where x is proper and the text is written so.
pub fn net_text_exact()
    ensures { NetExact }
{}

// A net text is refused just as the table of refusals says.
pub fn net_text_refusals()
    ensures { NetRefusals }
{}

// Each text is the text of one proper net or has one refusal, never both.
pub fn net_text_decided()
    ensures { NetDecided }
{}

// A field is read as a sum just where the sum is proper and the field is written so.
pub fn sum_exact()
    ensures { SumExact }
{}

// A field is refused just where a clause of sums is broken, the first from the left.
pub fn sum_refusals()
    ensures { SumRefusals }
{}

// One more part adds its amount to its place's weight and to no other.
pub fn weight_push()
    ensures { WeightPush }
{}

// A rules text is read as x just where x is proper and the text is written so.
pub fn rules_text_exact()
    ensures { RulesExact }
{}

// A rules text is refused just as the table of refusals says.
pub fn rules_text_refusals()
    ensures { RulesRefusals }
{}

// Each text is the text of one proper value or has one refusal, never both.
pub fn rules_text_decided()
    ensures { RulesDecided }
{}

// A proper sum weighs each of the places with -99 to 99, and nothing else.
pub fn weights_in()
    ensures { WeightsIn }
{}

// Some texts and sums, each with what reading it answers, and the numbers of the refusals of texts.
pub fn samples_read()
    ensures net { NetSamples }
    ensures rules { RulesSamples }
    ensures numbers { NumbersInOrder }
{}
