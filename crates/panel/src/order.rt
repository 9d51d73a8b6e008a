// An order line, read.
ghost use Rattle.std.specs.Prelude.{◌≡◌, Some};
ghost use Rattle.std.specs.Option.{ok_or};
ghost use Rattle.formats.specs.Words.{fields};
ghost use Rattle.rules.specs.Rules.{rule_of};
ghost use Rattle.texts.specs.Spans.{found};
ghost use Rattle.panel.specs.Orders.{order_of, by_word, with_rule, with_place};
ghost use Rattle.panel.specs.Said.{cell_said, line_rule};
ghost use Rattle.panel.specs.Asked.{order_said};

use crate::said::Said;
use ledger::call::Call;
use model::refusal::Refusal;
use rules::typed::TypedRule;
use rules_text::rule::RuleLine;
use texts::lines::cut;

// What an order line asks for: a call of the ledger, or the free tokens of a place.
// Kept: two orders, neither an error, so that `Result<Call, usize>` would say less; and a question is no `Call`, which the ledger makes.
#[derive(Clone, Copy)]
pub enum Order {
    Make(Call),
    Show(usize),
}

// The rule that a line types.
// Kept: `From<&RuleLine> for TypedRule` cannot stand here, where neither type is of this crate, nor beside either type, since the crate
// `rules_text` does not know the crate `rules`, nor that one it.
pub(crate) fn typed(line: &RuleLine) -> TypedRule
    ensures { rule_of result ≡ line_rule line.now }
{
    TypedRule {
        weights: line.weights,
        bound: line.bound,
    }
}

// The move that an order names.
fn move_asked(said: &Said, name: &[u8]) -> Result<usize, Refusal>
    ensures { result ≡ ok_or (found (cell_said said.now).moves name.now) Refusal.NameUnknown }
{
    said.move_named(name).ok_or(Refusal::NameUnknown)
}

// The admission of the rule of that name: rule line r belongs to row r.
fn with_rule(said: &Said, name: &[u8]) -> Result<Order, Refusal>
    ensures { order_said result ≡ Some (with_rule (cell_said said.now) name.now) }
{
    let r = said.rule_named(name).ok_or(Refusal::NameUnknown)?;
    let line = said.rules.rules.others.get(r).ok_or(Refusal::NameUnknown)?;
    Ok(Order::Make(Call::Admit(r, typed(line))))
}

// The question for the place of that name.
fn with_place(said: &Said, name: &[u8]) -> Result<Order, Refusal>
    ensures { order_said result ≡ Some (with_place (cell_said said.now) name.now) }
{
    said.place_named(name)
        .map(Order::Show)
        .ok_or(Refusal::NameUnknown)
}

// An order by its word and its name.
fn by_word(said: &Said, word: &[u8], name: &[u8]) -> Result<Order, Refusal>
    ensures { order_said result ≡ Some (by_word (cell_said said.now) word.now name.now) }
{
    match word {
        b"grant" => move_asked(said, name).map(Call::Grant).map(Order::Make),
        b"commit" => move_asked(said, name).map(Call::Commit).map(Order::Make),
        b"cancel" => move_asked(said, name).map(Call::Cancel).map(Order::Make),
        b"report" => move_asked(said, name).map(Call::Report).map(Order::Make),
        b"admit" => with_rule(said, name),
        b"show" => with_place(said, name),
        _ => Err(Refusal::NoRecord),
    }
}

// An order: its word and one more field.
pub(crate) fn read_order(said: &Said, line: &[u8]) -> Result<Order, Refusal>
    ensures { order_said result ≡ Some (order_of (cell_said said.now) (fields line.now)) }
{
    let (word, rest) = cut(line);
    let (name, more) = cut(rest.ok_or(Refusal::NoRecord)?);
    match more {
        None => by_word(said, word, name),
        Some(_) => Err(Refusal::NoRecord),
    }
}
