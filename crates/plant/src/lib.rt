// Nets and plants: what everything above them reads and calls.
#![tactic(auto)]

pub mod find;
pub mod front;
pub mod net;
pub mod plant;
