// Makes many calls on plants and on a ledger as large as they come, or reads the largest texts again and again, for its time to be taken.
// It prints how many calls passed and what stands at the end, or what was read, which is the same on every run. Of the files beside it
// `turns` says how many turns each part takes, two calls a turn or one reading in 1,000 turns, and `part` which one runs: table, bank,
// line, ledger or open, or all of these; net or rules.
#![tactic(auto)]

mod making;
mod reading;
mod turns;

use crate::making::{full_ledger, make_bank, make_line, make_table};
use crate::reading::{run_net, run_rules};
use crate::turns::take_turns;
use ledger::ledger::Ledger;
use plant::plant::Plant;
use std::{fs, io};

fn read_turns(rt: &HostRuntime) -> io::Result<u32> {
    let text = fs::read_to_string(rt, "turns")?;
    text.trim()
        .parse::<u32>()
        .map_err(|_| io::Error::other("the file turns has no number"))
}

fn run_plant<P: Plant + Drop>(
    rt: &HostRuntime,
    name: &str,
    mut plant: P,
    turns: u32,
) -> io::Result<()> {
    let passed = take_turns(&mut plant, turns, P::begin, P::back);
    println!(rt;
        "{name}: {passed} calls passed in {turns} turns; free at place 0: {}",
        plant.free(0)
    )
}

fn run_ledger<P: Plant + Drop>(
    rt: &HostRuntime,
    name: &str,
    mut ledger: Ledger<P>,
    open: usize,
    turns: u32,
) -> io::Result<()> {
    // These grants stay open.
    let granted = (0..open).filter(|t| ledger.grant(*t).is_ok()).count();
    let passed = take_turns(&mut ledger, turns, Ledger::grant, Ledger::cancel);
    println!(rt;
        "{name}: {granted} open, {passed} calls passed in {turns} turns; free at place 0: {}",
        ledger.free(0)
    )
}

fn run_part(rt: &HostRuntime, part: &str, turns: u32) -> io::Result<()> {
    match part {
        "table" => run_plant(rt, part, make_table(rt)?, turns),
        "bank" => run_plant(rt, part, make_bank(rt)?, turns),
        "line" => run_plant(rt, part, make_line(rt)?, turns),
        "ledger" => run_ledger(rt, part, full_ledger(rt)?, 0, turns),
        "open" => run_ledger(rt, part, full_ledger(rt)?, 10, turns),
        "net" => run_net(rt, turns),
        "rules" => run_rules(rt, turns),
        _ => println!(rt; "{part}: no such part"),
    }
}

fn run(rt: &HostRuntime) -> io::Result<()> {
    let turns = read_turns(rt)?;
    let text = fs::read_to_string(rt, "part")?;
    let part = text.trim();
    if part != "all" {
        return run_part(rt, part, turns);
    }
    for each in ["table", "bank", "line", "ledger", "open"] {
        run_part(rt, each, turns)?;
    }
    Ok(())
}

fn main(rt: HostRuntime) -> io::Result<()> {
    run(&rt)
}
