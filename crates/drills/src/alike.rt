// One list of calls on a bank and on the table that means the same net, and on a line and the table that means the same.
//
// The machine goes from idle to load, work and done, and is idle again. The line has the places load, work and done alone, so
// that only its fixed rule keeps the second one out, where in the bank it is the idle place.
use crate::nets::{make_bank, make_line, make_table};
use crate::order::run_orders;
use crate::orders::open_cell;
use crate::show::{Called, Shown};
use crate::typing::typed;
use ledger::call::Call::{self, Admit, Cancel, Commit, Grant, Report};
use plant::plant::Plant;
use rules::typed::TypedRule;
use std::io;

// The rules by where the place `done` stands, and what is shown.
#[derive(Clone, Copy)]
struct Layout {
    fixed: TypedRule,
    done: [i32; 4],
    shown: Shown,
}

fn ring_layout() -> Layout {
    Layout {
        fixed: typed(&[0, 0, 1, 1], 1),
        done: [0, 0, 0, 1],
        shown: Shown {
            places: 8,
            ground_places: 4,
            moves: 4,
        },
    }
}

fn row_layout() -> Layout {
    Layout {
        fixed: typed(&[0, 1, 1], 1),
        done: [0, 0, 1, 0],
        shown: Shown {
            places: 7,
            ground_places: 3,
            moves: 4,
        },
    }
}

fn alike_calls(done: &[i32]) -> [Call; 25] {
    let one = typed(done, 1);
    let none = typed(done, 0);
    [
        Grant(0),
        Report(1),
        Grant(0),
        Commit(0),
        Report(1),
        Grant(2),
        Admit(2, one),
        Cancel(2),
        Admit(2, one),
        Admit(2, none),
        Grant(2),
        Commit(2),
        Grant(3),
        Commit(3),
        Admit(0, none),
        Grant(0),
        Commit(0),
        Report(1),
        Grant(2),
        Grant(1),
        Report(2),
        Commit(2),
        Cancel(4),
        Admit(12, one),
        Grant(3),
    ]
}

fn run_plant<P: Plant + Drop>(rt: &HostRuntime, plant: P, layout: &Layout) -> io::Result<()> {
    let mut ledger = open_cell(plant, &layout.fixed)?;
    run_orders(
        rt,
        &mut ledger,
        &alike_calls(&layout.done).map(Called),
        layout.shown,
    )
}

pub fn run(rt: &HostRuntime) -> io::Result<()> {
    println!(rt; "a bank")?;
    run_plant(rt, make_bank(rt, "machine.net")?, &ring_layout())?;
    println!(rt; "a table of the same net")?;
    run_plant(rt, make_table(rt, "ring.net")?, &ring_layout())?;
    println!(rt; "a line")?;
    run_plant(rt, make_line(rt, "slots.net")?, &row_layout())?;
    println!(rt; "a table of the same net")?;
    run_plant(rt, make_table(rt, "row.net")?, &row_layout())
}
