// The net table: a plant whose arcs are as the net text has them.
#![tactic(auto)]

mod cell;
pub mod fire;
pub mod make;
pub mod table;
