// As many open grants as there may be, and one more.
use crate::nets::make_table;
use crate::order::Order::{Cancel, Commit, Grant};
use crate::order::run_orders;
use crate::show::{Shown, Standing};
use ledger::ledger::Ledger;
use plant::plant::Plant;
use std::io;

const SHOWN: Shown = Shown {
    places: 2,
    ground_places: 2,
    moves: 2,
};

// Grants the move 0 so many times, or until one is refused.
fn grant_many<P: Plant>(rt: &HostRuntime, ledger: &mut Ledger<P>, count: u32) -> io::Result<()> {
    match (0..count).find(|_| ledger.grant(0).is_err()) {
        Some(i) => print!(rt; "grant 0: {i} passed before one was refused")?,
        None => print!(rt; "grant 0: {count} passed")?,
    }
    println!(rt; "{}", Standing(ledger, SHOWN))
}

pub fn run(rt: &HostRuntime) -> io::Result<()> {
    println!(rt; "many open grants")?;
    let mut ledger = Ledger::new(make_table(rt, "many.net")?);
    grant_many(rt, &mut ledger, 199)?;
    let orders = [
        Grant(1),
        Grant(0),
        Grant(1),
        Grant(2),
        Cancel(1),
        Grant(0),
        Grant(0),
        Commit(0),
        Grant(0),
        Grant(0),
    ];
    run_orders(rt, &mut ledger, &orders, SHOWN)
}
