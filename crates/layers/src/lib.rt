// Monitors and boards: layers put on a plant, each a plant again.
#![tactic(auto)]

pub mod as_net;
pub mod as_plant;
pub mod board;
pub mod layer;
pub mod monitor;
pub mod pile;
pub mod row;
mod setting;
pub mod table;
