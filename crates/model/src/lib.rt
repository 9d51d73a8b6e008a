// What a reader must believe about a cell: nets, rules, layers, the ledger, the book and what is promised of them.
#![tactic(auto)]

pub mod cases;
pub mod fault;
pub mod laws;
pub mod refusal;
pub mod sizes;
