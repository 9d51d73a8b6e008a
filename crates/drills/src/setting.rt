// Setting rules, with what is answered.
use crate::show::{Told, Written};
use layers::board::Board;
use layers::monitor::Monitor;
use plant::plant::Plant;
use rules::typed::TypedRule;
use std::io;

// Kept: two functions. As calls of `run_steps` each would be a struct of its own with an `impl` of `Step` and one of `Display`, in the
// place of two lines; and a function for both, given the answer and the words, would be the `print!` alone.
pub fn set_monitor<P: Plant>(
    rt: &HostRuntime,
    monitor: &mut Monitor<P>,
    rule: &TypedRule,
) -> io::Result<()> {
    let answer = monitor.set(rule);
    print!(rt; "set {}: {}", Written(rule), Told(answer))
}

pub fn set_row<P: Plant>(
    rt: &HostRuntime,
    board: &mut Board<P>,
    r: usize,
    rule: &TypedRule,
) -> io::Result<()> {
    let answer = board.set(r, rule);
    print!(rt; "set row {r}, {}: {}", Written(rule), Told(answer))
}
