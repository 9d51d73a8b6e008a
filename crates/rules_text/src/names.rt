// The names of rules, as parts of the text that has them, and of all places, those of control places being names of rules.
ghost use Rattle.std.specs.Prelude.{◌≡◌, ◌++◌, slice_get};
ghost use Rattle.std.specs.Option.{option_map};
ghost use Rattle.formats.specs.Words.{is_new};
ghost use Rattle.formats.specs.NetText.{place_names};
ghost use Rattle.texts.specs.Spans.{part_of};
ghost use Rattle.rules_text.specs.Naming.{named_titles, rule_found};

use crate::rule::RulesText;
use net_text::named_net::{NamedNet, name_at};
use texts::names::{find, lacks, part};

// A rule of a rules text: the fixed one, or the one that belongs to a row.
// Kept: the answer of `find_rule`; its other form, `Option<Option<usize>>`, would write the fixed rule as `Some(None)` beside `None`
// for no rule.
#[derive(Clone, Copy)]
pub enum Rule {
    Fixed,
    Row(usize),
}

// Rules as they were read, with the text that their names are parts of.
#[derive(Clone, Copy)]
pub struct NamedRules<'r, 'a> {
    pub rules: &'r RulesText,
    pub text: &'a [u8],
}

impl<'r, 'a> NamedRules<'r, 'a> {
    // The name of the fixed rule.
    fn fixed_name(&self) -> &'a [u8]
        ensures { result.now ≡ part_of self.now.text.now self.now.rules.now.fixed.name }
    {
        part(self.text, self.rules.fixed.name)
    }

    // The name of the rule `r`, where 0 is the fixed one and the others follow it.
    pub fn rule_name(&self, r: usize) -> Option<&'a [u8]>
        ensures { option_map (λ x. x.now) result ≡ slice_get (named_titles self.now) r }
    {
        if r == 0 {
            Some(self.fixed_name())
        } else {
            name_at(&self.rules.others, self.text, r - 1)
        }
    }

    // The name of the place `p` over the net: a part of the net text for a ground place, of the rules text for a control place. The
    // control places follow the ground places, the fixed rule's first, then those of the rows.
    pub fn place_name(&self, net: &NamedNet<'_, 'a>, p: usize) -> Option<&'a [u8]>
        ensures { option_map (λ x. x.now) result ≡ slice_get (place_names net.now ++ named_titles self.now) p }
    {
        let ground = net.place_count();
        if p < ground {
            net.place_name(p)
        } else {
            self.rule_name(p - ground)
        }
    }

    // The rule of that name.
    pub fn find_rule(&self, name: &[u8]) -> Option<Rule>
        ensures { result ≡ rule_found (named_titles self.now) name.now }
    {
        if self.fixed_name() == name {
            return Some(Rule::Fixed);
        }
        find(&self.rules.others, self.text, name).map(Rule::Row)
    }

    // Whether no rule has the name.
    pub fn is_new(&self, name: &[u8]) -> bool
        ensures { result ≡ is_new (named_titles self.now) name.now }
    {
        self.fixed_name() != name && lacks(&self.rules.others, self.text, name)
    }
}
