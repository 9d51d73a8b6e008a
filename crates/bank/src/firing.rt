// What moves in a bank. Each call looks at one place, by its bit.
ghost use Rattle.std.specs.Prelude.{◌≡◌, ◌^◌, ◌<◌, true, refl};
ghost use Rattle.model.specs.Plant.{accepted, begin_answer, finish_answer, back_answer, begun, finished, gone_back};
ghost use Rattle.model.specs.Layer.{plant_alone};
ghost use Rattle.bank.specs.Banks.{bit, net_of, tokens_of};
ghost use Rattle.bank.specs.Ranging.{tokens_within};

use crate::bank::Bank;
use crate::bits::{bit_at, has_bit, with_bit, without_bit};
use crate::reading::next_place;
use model::fault::Fault;
use plant::net::Net;
use plant::plant::Plant;

impl Bank {
    // Kept: `taken`, `given` and `returned`, one line each, have a call of the model each in `requires` and `after`: one function would
    // take which call is meant and name all three in its contract. `inside` is what the bank asks of any tokens that are stored in it.

    // The tokens once the move `t` has begun.
    fn taken(&self, t: usize) -> u32
        requires { accepted (begin_answer (net_of self.now) (tokens_of self.now) t) ≡ true }
        ensures after { bit result ≡ begun (net_of self.now) (tokens_of self.now) t }
        ensures inside { result < 2 ^ self.now.count }
    {
        without_bit(self.tokens, t)
    }

    // The tokens once the move `t` has finished.
    fn given(&self, t: usize) -> u32
        requires { accepted (finish_answer (net_of self.now) (tokens_of self.now) t) ≡ true }
        ensures after { bit result ≡ finished (net_of self.now) (tokens_of self.now) t }
        ensures inside { result < 2 ^ self.now.count }
    {
        with_bit(self.tokens, next_place(t))
    }

    // The tokens once the move `t` has gone back.
    fn returned(&self, t: usize) -> u32
        requires { accepted (back_answer (net_of self.now) (tokens_of self.now) t) ≡ true }
        ensures after { bit result ≡ gone_back (net_of self.now) (tokens_of self.now) t }
        ensures inside { result < 2 ^ self.now.count }
    {
        with_bit(self.tokens, t)
    }
}

impl Plant for Bank {
    ghost tokens = { tokens_of };

    ghost pile = { λ s. plant_alone (net_of s) (tokens_of s) };

    ghost stacked = { λ _. (refl, refl) };

    ghost within = { λ s p. tokens_within s.count s.tokens p s.inside };

    fn free(&self, p: usize) -> u32 {
        if p < self.count {
            bit_at(self.tokens, p)
        } else {
            0
        }
    }

    // Kept: this and `over_by_take` differ in a `!`. With one `place_where(t, set)` each of the two would be a call of one line, as it is now.
    fn short_place(&self, t: usize) -> Option<usize> {
        (t < self.count && !has_bit(self.tokens, t)).then_some(t)
    }

    fn over_by_give(&self, t: usize) -> Option<usize> {
        let p = next_place(t);
        (t < self.count && has_bit(self.tokens, p)).then_some(p)
    }

    fn over_by_take(&self, t: usize) -> Option<usize> {
        (t < self.count && has_bit(self.tokens, t)).then_some(t)
    }

    // Kept: this call and the next two, the same in `bank` and in `table`. To provide them, `Plant` would need a method that moves the
    // tokens of `t` unasked: public as the trait is, with a `requires` that the move may begin. No public function may have a `requires`
    // where a refusal can stand.
    fn begin(&mut self, t: usize) -> Result<(), Fault> {
        self.may_begin(t)?;
        self.tokens = self.taken(t);
        Ok(())
    }

    fn finish(&mut self, t: usize) -> Result<(), Fault> {
        self.may_finish(t)?;
        self.tokens = self.given(t);
        Ok(())
    }

    fn back(&mut self, t: usize) -> Result<(), Fault> {
        self.may_back(t)?;
        self.tokens = self.returned(t);
        Ok(())
    }
}
