// The line as a net and as a plant.
ghost use Rattle.std.specs.Prelude.{◌≡◌, ℕ, ◌+◌, ◌-◌, ◌<◌, ◌≤◌, ◌&&◌, nat_lt, nat_le, if◌then◌else◌, Some, None, IfSome};
ghost use Rattle.model.specs.Layer.{plant_alone};
ghost use Rattle.line.specs.Lines.{net_of, tokens_of};
ghost use Rattle.std.proofs.Common.{rules, arith};

use crate::line::Line;
use model::fault::Fault;
use plant::net::Net;
use plant::plant::Plant;

impl Line {
    // The place that the move `t` takes from, if it takes from one: the one before it.
    fn source(&self, t: usize) -> Option<usize>
        ensures value { result ≡ (if nat_le 1 t && nat_lt t (self.now.count + 1) then Some (t - 1) else None) }
        ensures place { IfSome result (λ p. (p < self.now.count) × (p + 1 ≡ t)) }
    {
        if 1 <= t && t < self.moves() {
            Some(t - 1)
        } else {
            None
        }
    }

    // The place that the move `t` gives to, if it gives to one: the one after it.
    fn target(&self, t: usize) -> Option<usize>
        ensures value { result ≡ (if nat_lt t self.now.count then Some t else None) }
        ensures place { IfSome result (λ p. (p < self.now.count) × (p ≡ t)) }
    {
        (t < self.count).then_some(t)
    }
}

impl Net for Line {
    ghost net = { net_of };

    ghost sound = { Prim.search rules };

    ghost layered = { Prim.search rules };

    fn ground(&self) -> usize {
        self.count
    }

    fn places(&self) -> usize {
        self.count
    }

    fn moves(&self) -> usize {
        self.count + 1
    }

    fn controllable(&self, t: usize) -> bool {
        self.controllable[..self.moves()]
            .get(t)
            .copied()
            .unwrap_or(false)
    }

    fn take(&self, p: usize, t: usize) -> u32 {
        u32::from(p < self.count && p + 1 == t)
    }

    fn give(&self, p: usize, t: usize) -> u32 {
        u32::from(p < self.count && p == t)
    }

    fn limit(&self, p: usize) -> u32 {
        self.slots[..self.count].get(p).map_or(0, |slot| slot.limit)
    }

    fn layer(&self, _p: usize) -> usize {
        0
    }

    fn row(&self, _p: usize) -> usize {
        0
    }
}

impl Plant for Line {
    ghost tokens = { tokens_of };

    ghost pile = { λ s. plant_alone (net_of s) (tokens_of s) };

    ghost stacked = { Prim.search rules };

    ghost within = { Prim.search rules };

    fn free(&self, p: usize) -> u32 {
        self.slots[..self.count]
            .get(p)
            .map_or(0, |slot| slot.tokens)
    }

    fn short_place(&self, t: usize) -> Option<usize> {
        let from = self.source(t)?;
        (self.slots[from].tokens == 0).then_some(from)
    }

    fn over_by_give(&self, t: usize) -> Option<usize> {
        let to = self.target(t)?;
        self.slots[to].is_full().then_some(to)
    }

    fn over_by_take(&self, t: usize) -> Option<usize> {
        let from = self.source(t)?;
        self.slots[from].is_full().then_some(from)
    }

    // Kept: this call and the next two. To provide them, `Plant` would need a public method with a `requires` where a refusal can stand;
    // one function of this and `back` would take `Slot::lower` or `Slot::raise`, each with a `requires` of its own.
    fn begin(&mut self, t: usize) -> Result<(), Fault> {
        self.may_begin(t)?;
        if let Some(from) = self.source(t) {
            self.slots[from].lower();
        }
        Ok(())
    }

    fn finish(&mut self, t: usize) -> Result<(), Fault> {
        self.may_finish(t)?;
        if let Some(to) = self.target(t) {
            self.slots[to].raise();
        }
        Ok(())
    }

    fn back(&mut self, t: usize) -> Result<(), Fault> {
        self.may_back(t)?;
        if let Some(from) = self.source(t) {
            self.slots[from].raise();
        }
        Ok(())
    }
}
