// The buffer line: a plant of places in a row, each of which is filled from the one before it.
#![tactic(auto)]

pub mod fire;
pub mod line;
pub mod making;
mod slot;
