// The reader of the rules text.
ghost use Rattle.std.specs.Prelude.{◌≡◌, ◌+◌, ◌++◌, length, drop, nat_lt, vec_len, OnOk};
ghost use Rattle.model.specs.Sizes.{most_rules};
ghost use Rattle.formats.specs.Words.{is_new};
ghost use Rattle.formats.specs.NetText.{names, place_names};
ghost use Rattle.formats.specs.RulesText.RuleShape.{a_rule};
ghost use Rattle.texts.specs.Lines.{rule_shape_of};
ghost use Rattle.texts.specs.Walking.{numbered_lines, lines_left};
ghost use Rattle.rules_text.specs.Rules.{rule_titles};
ghost use Rattle.rules_text.specs.Reading.{Step, Stands, Located, Locates, LinesRead, RulesRead};

use crate::names::NamedRules;
use crate::read::{RuleFields, RulesReader};
use crate::rule::RulesText;
use model::refusal::Refusal;
use model::sizes::{MOST_PLACES, MOST_RULES};
use net_text::named_net::NamedNet;
use std::alloc::Global;
use texts::at::{At, WHOLE};
use texts::lines::{check_text, read_line};
use texts::record::Record;
use texts::stop::ReadError;
use texts::walk::Lines;

// Whether there may be one more rule.
fn rule_fits(rules: &RulesText) -> bool
    ensures { result ≡ nat_lt (vec_len rules.now.others) most_rules }
{
    rules.others.len() < MOST_RULES
}

// Kept: `rules` stand beside `self`, as there are none before this reader has read the fixed rule. One that held them would be a
// second struct around this one, and each of the three methods that change them would ensure besides that the reader is as it was.
impl RulesReader<'_> {
    // Whether no place, no move and no rule has the name.
    fn is_new(&self, rules: &RulesText, name: &[u8]) -> bool
        ensures { result ≡ is_new (names self.now.net.now ++ rule_titles self.now.text.now rules.now) name.now }
    {
        let rules = NamedRules {
            rules,
            text: self.text,
        };
        self.net.is_new(name) && rules.is_new(name)
    }

    // Adds the rule that the fields of a rule line say.
    fn add_rule(
        &self,
        rules: &mut RulesText,
        at: At,
        name: &[u8],
        sum: &[u8],
        bound: &[u8],
    ) -> Result<(), ReadError>
        requires stands { Stands self.now.text.now at.byte (a_rule name.now sum.now bound.now) }
        ensures step { Step (names self.now.net.now) (place_names self.now.net.now) self.now.text.now rules.old rules.new at.line at.byte (a_rule name.now sum.now bound.now) result }
        ensures located { OnOk result (Locates self.now.text.now rules.old rules.new at.byte) }
    {
        at.check(rule_fits(rules), Refusal::TooMany, at.byte)?;
        let fields = RuleFields {
            at,
            byte: at.byte + 5,
            name,
            sum,
            bound,
        };
        let rule = self.read_rule(&fields, self.is_new(rules, name))?;
        rules.others.push(rule)?;
        Ok(())
    }

    // Adds what a line after the first says to the rules; it must be a rule line.
    // Kept: like `add_record` and `read_lines` of `net_text`; a trait of both would have this match in each impl and, to share the loop's
    // four lines, five ghost items: the text, the lines so far, the order of checks, what is said, and where names stand.
    fn add_record(&self, rules: &mut RulesText, at: At, line: Record<'_>) -> Result<(), ReadError>
        requires stands { Stands self.now.text.now at.byte (rule_shape_of line) }
        ensures step { Step (names self.now.net.now) (place_names self.now.net.now) self.now.text.now rules.old rules.new at.line at.byte (rule_shape_of line.entry) result }
        ensures located { OnOk result (Locates self.now.text.now rules.old rules.new at.byte) }
    {
        match line {
            Record::Rule { name, sum, bound } => self.add_rule(rules, at, name, sum, bound),
            _ => Err(at.fault(Refusal::NoRecord, at.byte).into()),
        }
    }

    // Reads the lines that are still to come.
    fn read_lines(&self, rules: &mut RulesText, lines: Lines<'_>) -> Result<(), ReadError>
        requires to_come { lines_left lines ≡ drop (length rules.old.others.items + 1) (numbered_lines self.now.text.now) }
        requires located { Located self.now.text.now rules.old }
        ensures answer { LinesRead (names self.now.net.now) (place_names self.now.net.now) self.now.text.now rules.old rules.new (lines_left lines.entry) result }
        ensures located { OnOk result (Located self.now.text.now rules.new) }
    {
        for (at, line) in lines {
            let read = read_line(line, at)?;
            self.add_record(rules, at, read)?;
        }
        Ok(())
    }
}

// Reads a rules text against the net that it is for: the rules that it says, or where it is wrong and why. A net of more places
// than weights are kept for is refused with the whole text.
pub fn read_rules(alloc: Global, net: &NamedNet, text: &[u8]) -> Result<RulesText, ReadError>
    ensures { RulesRead net.now text.now result }
{
    WHOLE.check(net.place_count() <= MOST_PLACES, Refusal::TooMany, 0)?;
    check_text(text)?;
    let mut lines = Lines::new(text);
    let Some((at, first)) = lines.next() else {
        unreachable!();
    };
    let reader = RulesReader { net, text };
    let fixed = reader.read_fixed(first, at)?;
    let mut rules = RulesText {
        fixed,
        others: Vec::new(alloc),
    };
    reader.read_lines(&mut rules, lines)?;
    Ok(rules)
}
