// The search for what a round changes.
ghost use Rattle.std.specs.Prelude.{◌≡◌};
ghost use Rattle.rules.specs.Rules.{worked_of};
ghost use Rattle.rules.specs.Searching.{round_search};

use crate::worked::WorkedRule;
use plant::net::Net;

// A move that raises a rule, and the ground place that can absorb it: one of which the move takes more than it gives.
#[derive(Clone, Copy)]
pub struct Rising {
    pub transition: usize,
    pub absorber: Option<usize>,
}

impl WorkedRule {
    // The lowest uncontrollable move that raises the rule, with the lowest place that can absorb it.
    pub(crate) fn rising<N: Net>(&self, net: &N) -> Option<Rising>
        ensures { result ≡ round_search (N.Net.net net.now) (worked_of self.now) }
    {
        // Kept: a nested search that `break 'search` leaves is a form that is decided.
        let found = 'search: {
            'moves: for t in 0..net.moves() {
                if !net.controllable(t) && self.raise(net, t) > 0 {
                    'places: for p in 0..net.ground() {
                        if net.give(p, t) < net.take(p, t) {
                            break 'search Some(Rising {
                                transition: t,
                                absorber: Some(p),
                            });
                        }
                    }
                    break 'search Some(Rising {
                        transition: t,
                        absorber: None,
                    });
                }
            }
            None
        };
        found
    }
}
