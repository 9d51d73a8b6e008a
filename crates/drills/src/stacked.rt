// Two fixed monitors on each other over a plant of each kind, and a board over them.
use crate::firing::Firing::{self, Back, Begin, Finish};
use crate::firing::run_firings;
use crate::nets::{make_bank, make_line, make_table};
use crate::setting::{set_monitor, set_row};
use crate::show::Tokens;
use crate::typing::typed;
use layers::board::Board;
use layers::monitor::Monitor;
use plant::plant::Plant;
use rules::typed::TypedRule;
use std::io;

// The plant with two monitors, each set to its rule.
fn stack<P: Plant + Drop>(
    rt: &HostRuntime,
    plant: P,
    lower: &TypedRule,
    upper: &TypedRule,
) -> io::Result<Monitor<Monitor<P>>> {
    let mut first = Monitor::new(plant);
    set_monitor(rt, &mut first, lower)?;
    println!(rt; "{}", Tokens(&first))?;
    set_monitor(rt, &mut first, upper)?;
    println!(rt; "{}", Tokens(&first))?;
    let mut second = Monitor::new(first);
    set_monitor(rt, &mut second, upper)?;
    println!(rt; "{}", Tokens(&second))?;
    Ok(second)
}

fn set_rows<P: Plant>(
    rt: &HostRuntime,
    board: &mut Board<P>,
    rules: &[(usize, TypedRule)],
) -> io::Result<()> {
    for (r, rule) in rules {
        set_row(rt, board, *r, rule)?;
        println!(rt; "{}", Tokens(board))?;
    }
    Ok(())
}

// The rules of the two monitors and the calls through them, the rules of the board by their rows and the calls through it.
#[derive(Drop)]
struct Drill<'a> {
    lower: TypedRule,
    upper: TypedRule,
    firings: &'a [Firing],
    rows: &'a [(usize, TypedRule)],
    board_firings: &'a [Firing],
}

fn run_drill<P: Plant + Drop>(rt: &HostRuntime, plant: P, drill: &Drill) -> io::Result<()> {
    let mut pile = stack(rt, plant, &drill.lower, &drill.upper)?;
    run_firings(rt, &mut pile, drill.firings)?;
    let mut board = Board::new(pile);
    set_rows(rt, &mut board, drill.rows)?;
    run_firings(rt, &mut board, drill.board_firings)
}

// Places A, Z, B; moves in, out and ret. `out` is uncontrollable and takes 2 of Z.
fn run_table(rt: &HostRuntime) -> io::Result<()> {
    println!(rt; "two monitors and a board over a table")?;
    let drill = Drill {
        lower: typed(&[0, 1], 3),
        upper: typed(&[0, 0, 3], 5),
        firings: &table_firings(),
        rows: &[
            (0, typed(&[1], 4)),
            (11, typed(&[-1], -2)),
            (12, typed(&[1], 5)),
            (0, typed(&[1], 5)),
            (0, typed(&[100], 5)),
            (1, typed(&[100], 5)),
            (1, typed(&[-100], 5)),
            (1, typed(&[0, 0, 0, 1], 5)),
            (1, typed(&[1], 1_000_000)),
            (1, typed(&[1], 3)),
            (1, typed(&[-99], -999_999)),
            (1, typed(&[99], 999_999)),
        ],
        board_firings: &table_board_firings(),
    };
    run_drill(rt, make_table(rt, "zone.net")?, &drill)
}

fn table_firings() -> [Firing; 22] {
    [
        Begin(0),
        Begin(0),
        Begin(0),
        Begin(0),
        Back(0),
        Finish(0),
        Finish(0),
        Begin(1),
        Finish(1),
        Begin(0),
        Begin(0),
        Begin(2),
        Finish(2),
        Begin(1),
        Back(1),
        Back(1),
        Back(1),
        Begin(1),
        Begin(1),
        Begin(3),
        Finish(3),
        Finish(0),
    ]
}

fn table_board_firings() -> [Firing; 13] {
    [
        Begin(0),
        Finish(0),
        Begin(1),
        Finish(1),
        Begin(2),
        Begin(0),
        Begin(0),
        Finish(0),
        Begin(2),
        Back(2),
        Begin(2),
        Finish(2),
        Back(3),
    ]
}

// Two machines of four places; the moves 1 and 5 are uncontrollable.
fn run_bank(rt: &HostRuntime) -> io::Result<()> {
    println!(rt; "two monitors and a board over a bank")?;
    let drill = Drill {
        lower: typed(&[0, 0, 1, 0, 0, 0, 1], 1),
        upper: typed(&[0, 0, 0, 1, 0, 0, 0, 1], 1),
        firings: &bank_firings(),
        rows: &[
            (0, typed(&[-1, 0, 0, 0, -1], -1)),
            (1, typed(&[0, 0, 0, 1, 0, 0, 0, -1], 0)),
            (12, typed(&[1], 1)),
            (1, typed(&[1], 1)),
            (2, typed(&[0, 0, 0, 0, 0, 0, 0, 0, 1], 1)),
            (2, typed(&[0, 0, 0, 0, 0, 0, 1], 0)),
            (2, typed(&[0, -1], 0)),
            (3, typed(&[0, -1], -1)),
        ],
        board_firings: &bank_board_firings(),
    };
    run_drill(rt, make_bank(rt, "machines.net")?, &drill)
}

fn bank_firings() -> [Firing; 18] {
    [
        Begin(0),
        Begin(4),
        Finish(0),
        Begin(1),
        Finish(1),
        Begin(2),
        Finish(2),
        Begin(4),
        Finish(4),
        Begin(5),
        Finish(5),
        Begin(6),
        Begin(3),
        Finish(3),
        Finish(3),
        Begin(6),
        Back(6),
        Back(6),
    ]
}

fn bank_board_firings() -> [Firing; 14] {
    [
        Begin(0),
        Begin(6),
        Finish(6),
        Begin(0),
        Begin(7),
        Back(7),
        Begin(7),
        Finish(7),
        Begin(0),
        Finish(0),
        Begin(1),
        Finish(1),
        Begin(2),
        Begin(8),
    ]
}

// Three places of two; the move 2 is uncontrollable.
fn run_line(rt: &HostRuntime) -> io::Result<()> {
    println!(rt; "two monitors and a board over a line")?;
    let drill = Drill {
        lower: typed(&[0, 0, 1], 1),
        upper: typed(&[1, 1, 1], 2),
        firings: &line_firings(),
        rows: &[
            (0, typed(&[1], 2)),
            (5, typed(&[1, 0, -1], 1)),
            (12, typed(&[1], 1)),
            (5, typed(&[1], 1)),
            (1, typed(&[-100], 0)),
            (1, typed(&[0, 0, 0, 1], 1)),
            (1, typed(&[1], 0)),
            (1, typed(&[0, 0, -1], -1)),
        ],
        board_firings: &line_board_firings(),
    };
    run_drill(rt, make_line(rt, "buffers.net")?, &drill)
}

fn line_firings() -> [Firing; 14] {
    [
        Begin(0),
        Finish(0),
        Begin(0),
        Finish(0),
        Finish(0),
        Begin(0),
        Begin(1),
        Begin(1),
        Finish(1),
        Begin(2),
        Finish(2),
        Begin(2),
        Begin(3),
        Finish(3),
    ]
}

fn line_board_firings() -> [Firing; 12] {
    [
        Begin(0),
        Begin(1),
        Finish(1),
        Begin(0),
        Back(0),
        Begin(0),
        Finish(0),
        Begin(2),
        Finish(2),
        Begin(3),
        Finish(3),
        Begin(4),
    ]
}

pub fn run(rt: &HostRuntime) -> io::Result<()> {
    run_table(rt)?;
    run_bank(rt)?;
    run_line(rt)
}
