// Rules that are set, and rules that are not: broken by the tokens that stand, or not to be worked.
use crate::firing::Firing::Begin;
use crate::firing::run_firings;
use crate::nets::{make_line, make_table};
use crate::setting::{set_monitor, set_row};
use crate::show::{Tokens, Told, Written};
use crate::typing::typed;
use layers::board::Board;
use layers::monitor::Monitor;
use ledger::ledger::Ledger;
use plant::plant::Plant;
use rules::typed::TypedRule;
use std::io;

// The rule on a new monitor over the plant.
fn try_rule<P: Plant + Drop>(rt: &HostRuntime, plant: P, rule: &TypedRule) -> io::Result<()> {
    let mut monitor = Monitor::new(plant);
    set_monitor(rt, &mut monitor, rule)?;
    println!(rt; "{}", Tokens(&monitor))
}

// Three on the rack: it may be asked that three stay, and not that four do.
fn run_board(rt: &HostRuntime) -> io::Result<()> {
    println!(rt; "a board over the zone")?;
    let mut board = Board::new(make_table(rt, "n1.net")?);
    for (r, bound) in [(0, -4), (0, -3), (0, -3), (12, -3), (11, -4)] {
        set_row(rt, &mut board, r, &typed(&[-1], bound))?;
        println!(rt; "{}", Tokens(&board))?;
    }
    run_firings(rt, &mut board, &[Begin(0)])
}

// The same by a ledger, each first asked and then done.
fn run_admissions(rt: &HostRuntime) -> io::Result<()> {
    println!(rt; "a ledger on a board over the zone")?;
    let mut ledger = Ledger::new(Board::new(make_table(rt, "n1.net")?));
    for (r, bound) in [(0, -4), (0, -3), (0, -3), (12, -3)] {
        let rule = typed(&[-1], bound);
        let asked = ledger.may_admit(r, &rule);
        let answer = ledger.admit(r, &rule);
        let free = ledger.free(3);
        println!(rt;
            "admit {r}, {}: {}, {}; free {free}",
            Written(&rule),
            Told(asked),
            Told(answer)
        )?;
    }
    Ok(())
}

fn run_monitors(rt: &HostRuntime) -> io::Result<()> {
    println!(rt; "monitors")?;
    try_rule(rt, make_table(rt, "n1.net")?, &typed(&[-1], -4))?;
    try_rule(rt, make_table(rt, "n1.net")?, &typed(&[-1], -3))?;
    try_rule(rt, make_table(rt, "n1.net")?, &typed(&[0, 0, 1], 1))?;
    try_rule(rt, make_table(rt, "zone.net")?, &typed(&[0, 0, 3], 5))?;
    try_rule(rt, make_table(rt, "absent.net")?, &typed(&[0, 0, 1], 3))?;
    try_rule(rt, make_line(rt, "source.net")?, &typed(&[1], 1))?;
    try_rule(rt, make_table(rt, "chain.net")?, &typed(&[0, 0, 99], 5))?;
    try_rule(rt, make_table(rt, "chain.net")?, &typed(&[0, 0, 0, 99], 5))?;
    try_rule(rt, make_table(rt, "loop.net")?, &typed(&[0, 0, 1], 5))
}

pub fn run(rt: &HostRuntime) -> io::Result<()> {
    run_board(rt)?;
    run_admissions(rt)?;
    run_monitors(rt)
}
