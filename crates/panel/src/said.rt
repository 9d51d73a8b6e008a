// The texts of a cell as they were read, and the names in them.
ghost use Rattle.std.specs.Prelude.{◌≡◌, ◌^◌, ◌<◌, length};
ghost use Rattle.texts.specs.Spans.{found};
ghost use Rattle.panel.specs.Cells.{pile_names};
ghost use Rattle.panel.specs.Orders.{name_at};
ghost use Rattle.panel.specs.Said.{cell_said};

use net_text::named_net::NamedNet;
use rules_text::names::{NamedRules, Rule};
use texts::names::find;

// The net and the rules, each with the text that its names are parts of.
#[derive(Clone, Copy)]
pub struct Said<'a> {
    pub net: &'a NamedNet<'a, 'a>,
    pub rules: NamedRules<'a, 'a>,
}

// What is printed where there is no name.
pub(crate) const NO_NAME: &[u8] = b"-";

impl<'a> Said<'a> {
    // The move of that name.
    pub(crate) fn move_named(&self, name: &[u8]) -> Option<usize>
        ensures { result ≡ found (cell_said self.now).moves name.now }
    {
        self.net.find_move(name)
    }

    // The rule line of that name.
    pub(crate) fn rule_named(&self, name: &[u8]) -> Option<usize>
        ensures { result ≡ found (cell_said self.now).rules name.now }
    {
        find(&self.rules.rules.others, self.rules.text, name)
    }

    // The ground place of that name.
    fn ground_named(&self, name: &[u8]) -> Option<usize>
        ensures { result ≡ found (cell_said self.now).places name.now }
    {
        self.net.find_place(name)
    }

    // How many ground places there are.
    fn ground_count(&self) -> usize
        ensures value { result ≡ length (cell_said self.now).places }
        ensures small { result < 2 ^ 63 }
    {
        self.net.place_count()
    }

    // The place of the pile that has that name: a ground place, or the place of a rule.
    pub(crate) fn place_named(&self, name: &[u8]) -> Option<usize>
        ensures { result ≡ found (pile_names (cell_said self.now)) name.now }
    {
        if let Some(p) = self.ground_named(name) {
            return Some(p);
        }
        let first = self.ground_count();
        self.rules.find_rule(name).map(|rule| match rule {
            Rule::Fixed => first,
            Rule::Row(r) => first + 1 + r,
        })
    }

    // The name of a place of the pile: a part of the net text for a ground place, of the rules text for the place of a rule.
    pub(crate) fn place_name(&self, p: usize) -> &'a [u8]
        ensures { result.now ≡ name_at (pile_names (cell_said self.now)) p }
    {
        self.rules.place_name(self.net, p).unwrap_or(NO_NAME)
    }

    // The name of a move.
    pub(crate) fn move_name(&self, t: usize) -> &'a [u8]
        ensures { result.now ≡ name_at (cell_said self.now).moves t }
    {
        self.net.move_name(t).unwrap_or(NO_NAME)
    }
}
