// Cases worked by hand: layers and ledgers on plants of each kind. For each call its answer is printed, a refusal by its number,
// move and place, and the tokens after it. What is printed was written down by hand from the rules before the program first ran.
#![tactic(auto)]

mod alike;
mod firing;
mod many;
mod nets;
mod order;
mod orders;
mod room;
mod setting;
mod show;
mod shut;
mod slips;
mod stacked;
mod step;
mod typing;
mod worked;

use std::io;

fn run(rt: &HostRuntime) -> io::Result<()> {
    stacked::run(rt)?;
    shut::run(rt)?;
    worked::run(rt)?;
    orders::run(rt)?;
    many::run(rt)?;
    room::run(rt)?;
    alike::run(rt)?;
    slips::run(rt)
}

fn main(rt: HostRuntime) -> io::Result<()> {
    run(&rt)
}
