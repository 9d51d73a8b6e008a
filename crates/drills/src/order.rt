// Orders to a ledger on any plant: its calls that take a move.
use crate::show::{Shown, Standing};
use crate::step::{Step, run_steps};
use ledger::ledger::Ledger;
use model::fault::Fault;
use plant::plant::Plant;
use std::{fmt, io};

// Kept: `Call` of the ledger has `Admit` besides, and is made on a ledger over a board; these are made on a ledger over any plant.
#[derive(Clone, Copy)]
pub enum Order {
    Grant(usize),
    Commit(usize),
    Cancel(usize),
    Report(usize),
}

impl Order {
    // What the ledger says that it would answer.
    // Kept: beside `make`, since one match on the cases would answer pairs as `(Ledger::may_grant, Ledger::grant)`, and a clause
    // would have to say of both function pointers that they may be called.
    pub fn ask<P: Plant>(self, ledger: &Ledger<P>) -> Result<(), Fault> {
        match self {
            Order::Grant(t) => ledger.may_grant(t),
            Order::Commit(t) => ledger.may_commit(t),
            Order::Cancel(t) => ledger.may_cancel(t),
            Order::Report(t) => ledger.may_report(t),
        }
    }
}

impl<P: Plant> Step<Ledger<P>> for Order {
    fn make(&self, ledger: &mut Ledger<P>) -> Result<(), Fault> {
        match *self {
            Order::Grant(t) => ledger.grant(t),
            Order::Commit(t) => ledger.commit(t),
            Order::Cancel(t) => ledger.cancel(t),
            Order::Report(t) => ledger.report(t),
        }
    }
}

impl fmt::Display for Order {
    fn fmt<W: fmt::Write>(&self, f: &mut fmt::Formatter<W>) -> fmt::Result {
        match self {
            Order::Grant(t) => write!(f, "grant {t}"),
            Order::Commit(t) => write!(f, "commit {t}"),
            Order::Cancel(t) => write!(f, "cancel {t}"),
            Order::Report(t) => write!(f, "report {t}"),
        }
    }
}

// Each call of a ledger with its answer and the ledger after it.
pub fn run_orders<P: Plant, C: Step<Ledger<P>>>(
    rt: &HostRuntime,
    ledger: &mut Ledger<P>,
    orders: &[C],
    shown: Shown,
) -> io::Result<()> {
    run_steps(
        rt,
        ledger,
        orders,
        |l| println!(rt; "{}", Standing(l, shown)),
    )
}
