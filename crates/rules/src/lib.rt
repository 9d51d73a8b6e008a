// Rules as they are typed, and working them into rules that no uncontrollable move can break.
#![tactic(auto)]

pub mod gcd;
mod ranges;
mod round;
mod search;
pub mod typed;
pub mod weighing;
pub mod work;
pub mod worked;
