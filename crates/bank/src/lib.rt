// The machine bank: machines of four places each, with the tokens as the bits of one word.
#![tactic(auto)]

pub mod bank;
mod bits;
pub mod firing;
pub mod making;
pub mod reading;
