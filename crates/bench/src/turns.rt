// The calls, two a turn, each move in its turn.
use model::fault::Fault;

const MOVES: u32 = 32;

// Makes a call of a move and the one that undoes it, and tells how many calls passed.
pub fn take_turns<S, M, U>(subject: &mut S, turns: u32, make: M, undo: U) -> u64
where
    M: Fn(&mut S, usize) -> Result<(), Fault>,
    U: Fn(&mut S, usize) -> Result<(), Fault>,
    requires make { M.IsAlwaysCallable make }
    requires undo { U.IsAlwaysCallable undo }
{
    let mut passed: u64 = 0;
    // Kept: in a chain, as `flat_map(..).filter(..).count()`, one closure would hold `&mut subject` and both calls, with a clause of
    // its own that says that both may be made at each turn.
    for turn in 0..turns {
        let t = (turn % MOVES) as usize;
        passed += u64::from(make(subject, t).is_ok());
        passed += u64::from(undo(subject, t).is_ok());
    }
    passed
}
