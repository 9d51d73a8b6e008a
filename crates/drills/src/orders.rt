// The calls of a cell, one by one and as a list: a board over a monitor over the zone, which holds at most two.
use crate::nets::make_table;
use crate::order::run_orders;
use crate::show::{Called, Shown, Standing, Told};
use crate::typing::typed;
use layers::board::Board;
use layers::monitor::Monitor;
use layers::pile::build;
use ledger::call::Call::{self, Admit, Cancel, Commit, Grant, Report};
use ledger::ledger::Ledger;
use plant::plant::Plant;
use rules::typed::TypedRule;
use std::io;
use table::table::Table;

pub type Cell<P> = Ledger<Board<Monitor<P>>>;

// Of the zone's cell: the three ground places, the monitor's and the board's first.
pub const SHOWN: Shown = Shown {
    places: 5,
    ground_places: 3,
    moves: 3,
};

// A ledger on a board over a monitor that is set to the fixed rule.
pub fn open_cell<P: Plant + Drop>(plant: P, fixed: &TypedRule) -> io::Result<Cell<P>> {
    let pile = build(plant, fixed).map_err(|_| io::Error::other("the fixed rule is refused"))?;
    Ok(Ledger::new(pile))
}

pub type Zone = Cell<Table>;

pub fn open_zone(rt: &HostRuntime) -> io::Result<Zone> {
    open_cell(make_table(rt, "n1.net")?, &typed(&[0, 1], 2))
}

// Two are let into the zone and a third is not; then the bench is to hold at most one.
fn zone_calls() -> [Call; 10] {
    [
        Grant(0),
        Grant(0),
        Grant(0),
        Cancel(0),
        Commit(0),
        Admit(0, typed(&[0, 0, 1], 1)),
        Report(1),
        Grant(2),
        Grant(0),
        Commit(2),
    ]
}

fn run_one_by_one(rt: &HostRuntime) -> io::Result<()> {
    println!(rt; "the zone, call by call")?;
    let mut ledger = open_zone(rt)?;
    run_orders(rt, &mut ledger, &zone_calls().map(Called), SHOWN)?;
    println!(rt; "free at place 4: {}", ledger.free(4))?;
    run_orders(rt, &mut ledger, &[Called(Grant(1))], SHOWN)
}

fn run_list(rt: &HostRuntime) -> io::Result<()> {
    println!(rt; "the zone, by a list")?;
    let mut ledger = open_zone(rt)?;
    let answers = ledger.run(rt.alloc(), &zone_calls())?;
    for answer in &answers {
        println!(rt; "{}", Told(*answer))?;
    }
    println!(rt; "{} answers{}", answers.len(), Standing(&ledger, SHOWN))
}

pub fn run(rt: &HostRuntime) -> io::Result<()> {
    run_one_by_one(rt)?;
    run_list(rt)
}
