// The five calls as values.
use rules::typed::TypedRule;

// A call of a ledger: four with a move, and a rule that is to be admitted to a row of the board on top.
#[derive(Clone, Copy)]
pub enum Call {
    Grant(usize),
    Commit(usize),
    Cancel(usize),
    Report(usize),
    Admit(usize, TypedRule),
}
