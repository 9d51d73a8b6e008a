// Orders on a ledger, each with the line that it prints.
ghost use Rattle.std.specs.Prelude.{◌≡◌, ◌++◌, OnOk};
ghost use Rattle.formats.specs.Words.{fields, lines};
ghost use Rattle.ledger.specs.Values.{value_of};
ghost use Rattle.panel.specs.Orders.{order_of, answer_line, obeyed, next_ledger, answers};
ghost use Rattle.panel.specs.Said.{cell_said};

use crate::order::{Order, read_order};
use crate::print::{put_at, put_no, put_ok};
use crate::said::{NO_NAME, Said};
use layers::board::Board;
use ledger::ledger::Ledger;
use model::fault::Fault;
use plant::plant::Plant;
use std::alloc::AllocError;
use texts::walk::Lines;

// What is printed of a call's answer.
fn put_answer(out: &mut Vec<u8>, said: &Said, answer: Result<(), Fault>) -> Result<(), AllocError>
    ensures { OnOk result (out.new.items ≡ out.old.items ++ answer_line (cell_said said.now) answer) }
{
    match answer {
        Ok(()) => put_ok(out),
        Err(fault) => {
            // Kept: `map_or(NO_NAME, |t| said.move_name(t))` was tried, and the borrow checker's part was not made, since the constant
            // stands at another lifetime than the closure's name; with `map` and `unwrap_or`, which are as many lines, `returns-in-Err`
            // stayed open.
            let transition = match fault.transition {
                Some(t) => said.move_name(t),
                None => NO_NAME,
            };
            let place = match fault.spot {
                Some(spot) => said.place_name(spot.place),
                None => NO_NAME,
            };
            put_no(out, fault.refusal, transition, place)
        }
    }
}

// One order, on the ledger.
fn obey<P: Plant>(
    out: &mut Vec<u8>,
    said: &Said,
    ledger: &mut Ledger<Board<P>>,
    line: &[u8],
) -> Result<(), AllocError>
    ensures printed { OnOk result (out.new.items ≡ out.old.items ++ obeyed (cell_said said.now) (value_of ledger.old) (order_of (cell_said said.now) (fields line.now))) }
    ensures after { OnOk result (value_of ledger.new ≡ next_ledger (value_of ledger.old) (order_of (cell_said said.now) (fields line.now))) }
{
    match read_order(said, line) {
        Ok(Order::Make(call)) => put_answer(out, said, ledger.make(&call)),
        Ok(Order::Show(p)) => put_at(out, said.place_name(p), ledger.free(p)),
        Err(refusal) => put_no(out, refusal, NO_NAME, NO_NAME),
    }
}

// All orders, line by line.
pub(crate) fn obey_all<P: Plant>(
    out: &mut Vec<u8>,
    said: &Said,
    ledger: &mut Ledger<Board<P>>,
    orders: &[u8],
) -> Result<(), AllocError>
    ensures { OnOk result (out.new.items ≡ out.old.items ++ answers (cell_said said.now) (value_of ledger.old) (lines orders.now)) }
{
    for (_, line) in Lines::new(orders) {
        obey(out, said, ledger, line)?;
    }
    Ok(())
}
