// What the program does: from the bytes of the net, the rules and the orders to the bytes that are printed.
#![tactic(auto)]

pub mod example;
mod obey;
pub mod order;
mod print;
pub mod run;
pub mod said;
