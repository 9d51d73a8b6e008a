// The ledger: a pile and the grants that are open on it, and the calls of drivers, sensors and the setter.
#![tactic(auto)]

mod admitting;
mod asking;
pub mod call;
mod calls;
pub mod grants;
pub mod ledger;
mod run;
pub mod slip;
