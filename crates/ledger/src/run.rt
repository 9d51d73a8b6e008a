// Calls as values, on a ledger with a board on top: one, or a list of them. Here stands the promise about every list of calls.
ghost use Rattle.std.specs.Prelude.{◌≡◌, List, [], ◌∷◌, ◌++◌, IfOk, OnErr};
ghost use Rattle.model.specs.Layer.{Pile, InForce, Built};
ghost use Rattle.model.specs.Ledger.{new_ledger, answer, next, answers};
ghost use Rattle.model.specs.Ledger as model;
ghost use Rattle.ledger.specs.Values.{value_of};
ghost use Rattle.ledger.specs.Calls.{call_of, calls_of, Promised};

use crate::call::Call;
use crate::ledger::Ledger;
use layers::board::Board;
use model::fault::Fault;
use plant::plant::Plant;
use std::alloc::{AllocError, Global};

impl<P: Plant> Ledger<Board<P>> {
    // Makes one call. Whatever calls have been made since the ledger was opened on a pile that can be built, the promise holds after it.
    pub fn make(&mut self, call: &Call) -> Result<(), Fault>
        ensures answer { result ≡ answer (value_of self.old) (call_of call.now) }
        ensures after { value_of self.new ≡ next (value_of self.old) (call_of call.now) }
        ensures promise { (p : Pile) (rs : List InForce) (before : List model.Call) → Built p rs → value_of self.old ≡ model.run (new_ledger p) before → Promised p rs (before ++ call_of call.now ∷ []) (value_of self.new) }
    {
        match *call {
            Call::Grant(t) => self.grant(t),
            Call::Commit(t) => self.commit(t),
            Call::Cancel(t) => self.cancel(t),
            Call::Report(t) => self.report(t),
            Call::Admit(r, rule) => self.admit(r, &rule),
        }
    }

    // Makes the calls one after the other, and tells what each answered. If there is no memory for the answers, none is made.
    pub fn run(
        &mut self,
        alloc: Global,
        calls: &[Call],
    ) -> Result<Vec<Result<(), Fault>>, AllocError>
        ensures answers { IfOk result (λ v. v.items ≡ answers (value_of self.old) (calls_of calls.now)) }
        ensures after { IfOk result (λ v. value_of self.new ≡ model.run (value_of self.old) (calls_of calls.now)) }
        ensures promise { IfOk result (λ v. (p : Pile) (rs : List InForce) (before : List model.Call) → Built p rs → value_of self.old ≡ model.run (new_ledger p) before → Promised p rs (before ++ calls_of calls.now) (value_of self.new)) }
        ensures no_memory { OnErr result (self.new ≡ self.old) }
    {
        let mut answers = Vec::with_capacity(alloc, calls.len())?;
        // Kept: the room for all answers is there before any call is made; a `collect` could fail after some of them.
        'calls: for call in calls {
            answers.push_reserved(self.make(call));
        }
        Ok(answers)
    }
}
