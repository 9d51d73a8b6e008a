// The reading part of a bank.
ghost use Rattle.std.specs.Prelude.{◌≡◌};
ghost use Rattle.bank.specs.Banks.{next_place, net_of, letter};
ghost use Rattle.bank.specs.Ranging.{bank_ranges};
ghost use Rattle.std.proofs.Common.{arith};

use crate::bank::Bank;
use crate::bits::has_bit;
use plant::net::Net;

// The place that the move `t` gives to: the next of its machine, and after the last the first.
pub(crate) fn next_place(t: usize) -> usize
    ensures { result ≡ next_place t }
{
    4 * (t / 4) + (t % 4 + 1) % 4
}

impl Net for Bank {
    ghost net = { net_of };

    ghost sound = { λ s. bank_ranges s.count (letter s.letters) s.some s.few };

    ghost layered = { λ _ _. Prim.omega arith };

    fn ground(&self) -> usize {
        self.count
    }

    fn places(&self) -> usize {
        self.count
    }

    fn moves(&self) -> usize {
        self.count
    }

    fn controllable(&self, t: usize) -> bool {
        t < self.count && has_bit(self.letters, t)
    }

    fn take(&self, p: usize, t: usize) -> u32 {
        u32::from(p < self.count && t < self.count && p == t)
    }

    fn give(&self, p: usize, t: usize) -> u32 {
        u32::from(p < self.count && t < self.count && p == next_place(t))
    }

    fn limit(&self, p: usize) -> u32 {
        u32::from(p < self.count)
    }

    fn layer(&self, _p: usize) -> usize {
        0
    }

    fn row(&self, _p: usize) -> usize {
        0
    }
}
