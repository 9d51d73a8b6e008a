// How many grants of each move are open, and what they may yet bring to each place.
ghost use Rattle.std.specs.Prelude.{◌≡◌, ℕ, ◌<◌, true, max, slice_index};
ghost use Rattle.model.specs.Net.{Net as NetValue};
ghost use Rattle.model.specs.Ledger.{plus_one, minus_one};
ghost use Rattle.model.specs.Sizes.{most_all_places, most_open};
ghost use Rattle.ledger.specs.Grants.{opened, Tallied};

use model::sizes::{MOST_ALL_PLACES, MOST_MOVES};
use plant::net::Net;

// The counts of a ledger. `reserved` has for each place the sum over the open grants of the greater of take and give there, so that
// a call need not look at any move but its own.
#[derive(Clone, Copy)]
pub struct Grants {
    pub(crate) counts: [u32; MOST_MOVES],
    pub(crate) total: u32,
    pub(crate) reserved: [u32; MOST_ALL_PLACES],
}

// The most that one grant of the move `t` may bring to the place `p`. Inlined, since a call asks it of every place.
#[inline(always)]
fn most_brought<N: Net>(net: &N, p: usize, t: usize) -> u32
    ensures { result ≡ max ((N.Net.net net.now).take p t) ((N.Net.net net.now).give p t) }
{
    net.take(p, t).max(net.give(p, t))
}

impl Grants {
    // No open grants.
    pub(crate) fn none() -> Self
        ensures none { opened result.counts ≡ (λ t. 0) }
        ensures tallied { (n : NetValue) → Tallied n result }
    {
        Grants {
            counts: [0; MOST_MOVES],
            total: 0,
            reserved: [0; MOST_ALL_PLACES],
        }
    }

    // The open grants of the move `t`.
    pub(crate) fn of(&self, t: usize) -> u32
        ensures { result ≡ opened self.now.counts t }
    {
        self.counts.get(t).copied().unwrap_or(0)
    }

    // The open grants of all moves.
    pub(crate) fn total(&self) -> u32
        ensures { result ≡ self.now.total }
    {
        self.total
    }

    // What the open grants may yet bring to the place `p`.
    pub(crate) fn reserved(&self, p: usize) -> u32
        requires { p < most_all_places }
        ensures { result ≡ slice_index self.now.reserved p }
    {
        self.reserved[p]
    }

    // One more grant of the move `t`.
    // Kept: this and `remove` differ in a sign, and so in what they require and promise; one function would have to say both.
    pub(crate) fn add<N: Net>(&mut self, net: &N, t: usize)
        requires tallied { Tallied (N.Net.net net.now) self.old }
        requires there { t < (N.Net.net net.now).moves }
        requires controllable { (N.Net.net net.now).controllable t ≡ true }
        requires room { self.old.total < most_open }
        ensures tallied { Tallied (N.Net.net net.now) self.new }
        ensures counts { opened self.new.counts ≡ plus_one (opened self.old.counts) t }
    {
        let places = net.places();
        'places: for (p, reserved) in self.reserved[..places].iter_mut().enumerate() {
            *reserved += most_brought(net, p, t);
        }
        self.counts[t] += 1;
        self.total += 1;
    }

    // One grant fewer of the move `t`.
    pub(crate) fn remove<N: Net>(&mut self, net: &N, t: usize)
        requires tallied { Tallied (N.Net.net net.now) self.old }
        requires there { t < (N.Net.net net.now).moves }
        requires open { 0 < opened self.old.counts t }
        ensures tallied { Tallied (N.Net.net net.now) self.new }
        ensures counts { opened self.new.counts ≡ minus_one (opened self.old.counts) t }
    {
        let places = net.places();
        'places: for (p, reserved) in self.reserved[..places].iter_mut().enumerate() {
            *reserved -= most_brought(net, p, t);
        }
        self.counts[t] -= 1;
        self.total -= 1;
    }
}
