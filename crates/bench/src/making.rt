// The largest plant of each kind, and a ledger on the largest pile: a monitor and a board with a rule in each row.
use bank::bank::Bank;
use layers::board::Board;
use layers::monitor::Monitor;
use layers::pile::build;
use ledger::ledger::Ledger;
use line::line::Line;
use model::sizes::{BOARD_ROWS, MOST_BOUND};
use net_text::net::NetText;
use net_text::reader::read_net;
use rules::typed::TypedRule;
use std::{array, fs, io};
use table::table::Table;

// What is made of the net text at the path, or an error with these words where nothing can be made of it.
// Kept: drills has the same function and its three calls. A library crate for both would have to promise something; tried: an `Ok` answer
// was made by `make` from a net that some text reads as. The check did not close `returns` without answers, and no program needs that
// fact.
fn made<P, F: FnOnce(&NetText) -> Option<P>>(
    rt: &HostRuntime,
    path: &str,
    make: F,
    words: &str,
) -> io::Result<P>
    requires { F.IsAlwaysCallable make }
{
    let text = fs::read(rt, path)?;
    let net = read_net(rt.alloc(), &text).map_err(|_| io::Error::other("a net text is refused"))?;
    make(&net).ok_or_else(|| io::Error::other(words))
}

// 32 places and 32 moves, with an arc between each place and each move.
pub fn make_table(rt: &HostRuntime) -> io::Result<Table> {
    made(rt, "table.net", table::make::make, "no table can be made")
}

// Eight machines, with a token at each place.
pub fn make_bank(rt: &HostRuntime) -> io::Result<Bank> {
    made(rt, "bank.net", bank::making::make, "no bank can be made")
}

// 31 places, which have 32 moves between them and at the ends.
pub fn make_line(rt: &HostRuntime) -> io::Result<Line> {
    made(rt, "line.net", line::making::make, "no line can be made")
}

// The sum of every other place, from the row's own, is bounded so high that no grant ever breaks it.
fn rule_of_row(r: usize) -> TypedRule {
    TypedRule {
        weights: array::from_fn(|p| i32::from(p % 2 == r % 2)),
        bound: MOST_BOUND,
    }
}

pub fn full_ledger(rt: &HostRuntime) -> io::Result<Ledger<Board<Monitor<Table>>>> {
    let table = make_table(rt)?;
    let fixed = rule_of_row(0);
    let pile = build(table, &fixed).map_err(|_| io::Error::other("the fixed rule is refused"))?;
    let mut ledger = Ledger::new(pile);
    for r in 0..BOARD_ROWS {
        ledger
            .admit(r, &rule_of_row(r))
            .map_err(|_| io::Error::other("a rule is refused"))?;
    }
    Ok(ledger)
}
