// Drivers, who hold a slip for each grant until they commit or cancel it.
use crate::order::Order::{self, Cancel, Commit, Report};
use crate::order::run_orders;
use crate::orders::{SHOWN, open_zone};
use crate::show::{Standing, Told};
use crate::step::Step;
use ledger::ledger::Ledger;
use ledger::slip::Slip;
use model::fault::Fault;
use plant::plant::Plant;
use std::{fmt, io};

// How a driver gives a slip back.
#[derive(Clone, Copy)]
enum End {
    CommitSlip,
    CancelSlip,
    Settle(bool),
}

impl End {
    fn make<P: Plant>(self, ledger: &mut Ledger<P>, slip: Slip) -> Result<(), Fault> {
        match self {
            End::CommitSlip => ledger.commit_slip(slip),
            End::CancelSlip => ledger.cancel_slip(slip),
            End::Settle(made) => ledger.settle(slip, made),
        }
    }
}

impl fmt::Display for End {
    fn fmt<W: fmt::Write>(&self, f: &mut fmt::Formatter<W>) -> fmt::Result {
        match self {
            End::CommitSlip => f.write_str("commit slip"),
            End::CancelSlip => f.write_str("cancel slip"),
            End::Settle(made) => write!(f, "settle slip, made {made}"),
        }
    }
}

fn print_slip<P: Plant>(rt: &HostRuntime, ledger: &Ledger<P>, t: usize) -> io::Result<()> {
    println!(rt; "a slip for {t}{}", Standing(ledger, SHOWN))
}

// The grant ended by its number, if it is to be, and what came of that.
fn end_before<P: Plant>(
    rt: &HostRuntime,
    ledger: &mut Ledger<P>,
    before: Option<Order>,
) -> io::Result<()> {
    let Some(order) = before else {
        return Ok(());
    };
    let answer = order.make(ledger);
    println!(rt; "ended before: {}{}", Told(answer), Standing(ledger, SHOWN))
}

// A driver from claim to end. The order `before` ends the grant by its number, so that the slip is worth nothing. The slip is given back,
// whether or not there was anywhere to print.
fn drive<P: Plant>(
    rt: &HostRuntime,
    ledger: &mut Ledger<P>,
    t: usize,
    before: Option<Order>,
    end: End,
) -> io::Result<()> {
    print!(rt; "claim {t}: ")?;
    match ledger.claim(t) {
        Ok(slip) => {
            let (which, slip) = slip.which();
            let printed = print_slip(rt, ledger, which);
            let told = end_before(rt, ledger, before);
            let answer = end.make(ledger, slip);
            printed?;
            told?;
            print!(rt; "{end}: {}", Told(answer))?;
        }
        Err(fault) => print!(rt; "{}", Told(Err(fault)))?,
    }
    println!(rt; "{}", Standing(ledger, SHOWN))
}

pub fn run(rt: &HostRuntime) -> io::Result<()> {
    println!(rt; "slips")?;
    let mut zone = open_zone(rt)?;
    let drives = [
        (0, None, End::CommitSlip),
        (0, None, End::CancelSlip),
        (0, None, End::Settle(true)),
        (0, None, End::CommitSlip),
        (2, None, End::CommitSlip),
        (1, None, End::CommitSlip),
        (3, None, End::CommitSlip),
    ];
    for (t, before, end) in drives {
        drive(rt, &mut zone, t, before, end)?;
    }
    run_orders(rt, &mut zone, &[Report(1)], SHOWN)?;
    let drives = [
        (2, None, End::Settle(false)),
        (2, Some(Cancel(2)), End::CommitSlip),
        (2, Some(Commit(2)), End::CancelSlip),
    ];
    for (t, before, end) in drives {
        drive(rt, &mut zone, t, before, end)?;
    }
    Ok(())
}
