// Boards over boards until one is shut, and shut monitors: they add no place and no rule can be set there.
use crate::firing::Firing::{self, Back, Begin, Finish};
use crate::nets::{make_bank, make_line, make_table};
use crate::setting::{set_monitor, set_row};
use crate::show::TokensAt;
use crate::step::run_steps;
use crate::typing::typed;
use layers::board::Board;
use layers::monitor::Monitor;
use plant::plant::Plant;
use std::io;

// Tells how many places the layer or plant has.
fn put<L: Plant + Drop>(rt: &HostRuntime, name: &str, layer: L) -> io::Result<L> {
    println!(rt; "{name}: {} places", layer.places())?;
    Ok(layer)
}

// What is done with boards on a plant.
trait Case: Drop {
    fn run<P: Plant + Drop>(self, rt: &HostRuntime, boards: Board<P>) -> io::Result<()>;
}

// The case with one board more.
#[derive(Drop)]
struct More<C>(C);

impl<C: Case> Case for More<C> {
    fn run<P: Plant + Drop>(self, rt: &HostRuntime, boards: Board<P>) -> io::Result<()> {
        let more = put(rt, "board", Board::new(boards))?;
        self.0.run(rt, more)
    }
}

// Each call with its answer and the tokens at these places after it.
fn run_firings<P: Plant>(
    rt: &HostRuntime,
    plant: &mut P,
    firings: &[Firing],
    places: &[usize],
) -> io::Result<()> {
    run_steps(rt, plant, firings, |plant| {
        println!(rt; "{}", TokensAt(plant, places))
    })
}

fn try_monitor<P: Plant>(rt: &HostRuntime, monitor: &mut Monitor<P>) -> io::Result<()> {
    for weight in [-1, 100] {
        set_monitor(rt, monitor, &typed(&[weight], 0))?;
        println!(rt; "")?;
    }
    Ok(())
}

fn try_board<P: Plant>(rt: &HostRuntime, board: &mut Board<P>) -> io::Result<()> {
    for (r, weight) in [(0, -1), (11, -1), (0, 100), (12, -1)] {
        set_row(rt, board, r, &typed(&[weight], 0))?;
        println!(rt; "")?;
    }
    Ok(())
}

// A board over a monitor that is shut, and calls through both.
fn run_shut_monitor<P: Plant + Drop>(rt: &HostRuntime, open: P) -> io::Result<()> {
    let mut shut = put(rt, "monitor", Monitor::new(open))?;
    try_monitor(rt, &mut shut)?;
    let mut top = put(rt, "board", Board::new(shut))?;
    try_board(rt, &mut top)?;
    let firings = [
        Begin(0),
        Finish(2),
        Begin(0),
        Finish(0),
        Begin(1),
        Finish(1),
        Back(0),
        Finish(2),
        Finish(2),
        Begin(3),
    ];
    run_firings(rt, &mut top, &firings, &[0, 1, 2, 63])
}

// A monitor over 63 places is not shut, one over 64 is.
#[derive(Drop)]
struct OnTable;

impl Case for OnTable {
    fn run<P: Plant + Drop>(self, rt: &HostRuntime, boards: Board<P>) -> io::Result<()> {
        let mut open = put(rt, "monitor", Monitor::new(boards))?;
        set_monitor(rt, &mut open, &typed(&[-1], -3))?;
        println!(rt; "")?;
        run_shut_monitor(rt, open)
    }
}

// A monitor over a board that is shut, and calls through both.
fn run_shut_board<P: Plant + Drop>(rt: &HostRuntime, open: P) -> io::Result<()> {
    let mut shut = put(rt, "board", Board::new(open))?;
    try_board(rt, &mut shut)?;
    let mut top = put(rt, "monitor", Monitor::new(shut))?;
    try_monitor(rt, &mut top)?;
    let firings = [Begin(0), Finish(1), Finish(1)];
    run_firings(rt, &mut top, &firings, &[0, 1, 2, 3, 63])
}

// A board over 52 places is not shut, one over 64 is.
#[derive(Drop)]
struct OnBank;

impl Case for OnBank {
    fn run<P: Plant + Drop>(self, rt: &HostRuntime, mut boards: Board<P>) -> io::Result<()> {
        set_row(rt, &mut boards, 11, &typed(&[0, 1], 0))?;
        println!(rt; "")?;
        run_shut_board(rt, boards)
    }
}

// A board over 53 places is shut; a monitor over it is not, and its layer is the one above the highest that has a place.
#[derive(Drop)]
struct OnLine;

impl Case for OnLine {
    fn run<P: Plant + Drop>(self, rt: &HostRuntime, mut boards: Board<P>) -> io::Result<()> {
        try_board(rt, &mut boards)?;
        let mut top = put(rt, "monitor", Monitor::new(boards))?;
        set_monitor(rt, &mut top, &typed(&[0, 1], 0))?;
        println!(rt; "")?;
        let firings = [Begin(1), Begin(0), Begin(2), Finish(2), Begin(1), Finish(1)];
        run_firings(rt, &mut top, &firings, &[0, 1, 2, 3, 4, 53])
    }
}

// The case on five boards on the plant. A board at a time keeps the types that a function names short.
fn run_case<P: Plant + Drop, C: Case>(rt: &HostRuntime, plant: P, case: C) -> io::Result<()> {
    let plant = put(rt, "plant", plant)?;
    let first = put(rt, "board", Board::new(plant))?;
    More(More(More(More(case)))).run(rt, first)
}

pub fn run(rt: &HostRuntime) -> io::Result<()> {
    println!(rt; "layers over a table of 3 places")?;
    run_case(rt, make_table(rt, "n1.net")?, OnTable)?;
    println!(rt; "layers over a bank of 4 places")?;
    run_case(rt, make_bank(rt, "machine.net")?, OnBank)?;
    println!(rt; "layers over a line of 5 places")?;
    run_case(rt, make_line(rt, "five.net")?, OnLine)
}
