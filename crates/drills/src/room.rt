// Room: a line of two places that hold one each, the first full.
use crate::nets::make_line;
use crate::order::Order::{self, Cancel, Commit, Grant, Report};
use crate::show::{Shown, Standing, Told};
use crate::step::Step;
use ledger::ledger::Ledger;
use plant::plant::Plant;
use std::io;

const SHOWN: Shown = Shown {
    places: 2,
    ground_places: 2,
    moves: 3,
};

// A ledger straight on a plant, with no layer between: each order is asked for first.
// Kept: beside `run_steps`, which asks nothing: the two share the `for` and the print of an answer. `run_admissions` of `worked` asks too,
// of calls that `Order` has not, and prints the tokens of one place.
fn ask_and_run<P: Plant>(
    rt: &HostRuntime,
    ledger: &mut Ledger<P>,
    orders: &[Order],
) -> io::Result<()> {
    for order in orders {
        let asked = order.ask(ledger);
        let answer = order.make(ledger);
        println!(rt;
            "{order}: {}, {}{}",
            Told(asked),
            Told(answer),
            Standing(ledger, SHOWN)
        )?;
    }
    Ok(())
}

pub fn run(rt: &HostRuntime) -> io::Result<()> {
    println!(rt; "room on a line, each call asked and made")?;
    let mut ledger = Ledger::new(make_line(rt, "pair.net")?);
    let orders = [
        Grant(0),
        Grant(1),
        Grant(0),
        Grant(1),
        Grant(2),
        Commit(1),
        Grant(0),
        Grant(0),
        Grant(1),
        Grant(2),
        Commit(0),
        Grant(1),
        Cancel(2),
        Cancel(2),
        Report(0),
        Grant(3),
        Commit(3),
        Cancel(3),
        Report(3),
    ];
    ask_and_run(rt, &mut ledger, &orders)
}
