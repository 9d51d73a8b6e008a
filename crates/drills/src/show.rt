// How answers, rules, calls and tokens are printed.
use crate::step::Step;
use layers::board::Board;
use ledger::call::Call::{self, Admit, Cancel, Commit, Grant, Report};
use ledger::ledger::Ledger;
use model::fault::Fault;
use plant::net::Net;
use plant::plant::Plant;
use rules::typed::TypedRule;
use std::fmt;

// An answer: a refusal by its number, with its move and its place, and of a control place the layer and row too.
#[derive(Drop)]
pub struct Told(pub Result<(), Fault>);

impl fmt::Display for Told {
    fn fmt<W: fmt::Write>(&self, f: &mut fmt::Formatter<W>) -> fmt::Result {
        let Err(fault) = self.0 else {
            return f.write_str("passed");
        };
        write!(f, "{}", fault.refusal.number())?;
        if let Some(t) = fault.transition {
            write!(f, " move {t}")?;
        }
        if let Some(spot) = fault.spot {
            write!(f, " at place {}", spot.place)?;
            if spot.layer != 0 || spot.row != 0 {
                write!(f, ", layer {}, row {}", spot.layer, spot.row)?;
            }
        }
        Ok(())
    }
}

// A rule: the weights that are not 0, each with its place, and the bound.
#[derive(Drop)]
pub struct Written<'a>(pub &'a TypedRule);

impl fmt::Display for Written<'_> {
    fn fmt<W: fmt::Write>(&self, f: &mut fmt::Formatter<W>) -> fmt::Result {
        // Kept: the number of each place is written, so that `filter` in the place of the `if` would leave the `enumerate`.
        for (p, weight) in self.0.weights.iter().enumerate() {
            if *weight != 0 {
                write!(f, "{weight}*p{p} ")?;
            }
        }
        write!(f, "<= {}", self.0.bound)
    }
}

// A call of a ledger over a board.
#[derive(Clone, Copy)]
pub struct Called(pub Call);

impl<P: Plant> Step<Ledger<Board<P>>> for Called {
    fn make(&self, ledger: &mut Ledger<Board<P>>) -> Result<(), Fault> {
        ledger.make(&self.0)
    }
}

impl fmt::Display for Called {
    fn fmt<W: fmt::Write>(&self, f: &mut fmt::Formatter<W>) -> fmt::Result {
        match &self.0 {
            Grant(t) => write!(f, "grant {t}"),
            Commit(t) => write!(f, "commit {t}"),
            Cancel(t) => write!(f, "cancel {t}"),
            Report(t) => write!(f, "report {t}"),
            Admit(r, rule) => write!(f, "admit {r}, {}", Written(rule)),
        }
    }
}

// The tokens of all places, with a bar before those of each layer.
#[derive(Drop)]
pub struct Tokens<'a, P>(pub &'a P);

impl<P: Plant> fmt::Display for Tokens<'_, P> {
    fn fmt<W: fmt::Write>(&self, f: &mut fmt::Formatter<W>) -> fmt::Result {
        let mut layer = 0;
        f.write_str(";")?;
        for p in 0..self.0.places() {
            if self.0.layer(p) != layer {
                layer = self.0.layer(p);
                f.write_str(" |")?;
            }
            write!(f, " {}", self.0.free(p))?;
        }
        Ok(())
    }
}

// The tokens of these places.
#[derive(Drop)]
pub struct TokensAt<'a, P>(pub &'a P, pub &'a [usize]);

impl<P: Plant> fmt::Display for TokensAt<'_, P> {
    fn fmt<W: fmt::Write>(&self, f: &mut fmt::Formatter<W>) -> fmt::Result {
        f.write_str(";")?;
        for p in self.1 {
            write!(f, " {}", self.0.free(*p))?;
        }
        Ok(())
    }
}

// How much of a ledger is shown: the first of its places, its ground places and its moves.
#[derive(Clone, Copy)]
pub struct Shown {
    pub places: usize,
    pub ground_places: usize,
    pub moves: usize,
}

// A heading, and the numbers at the first `count` indices.
fn write_row<W: fmt::Write, F: Fn(usize) -> u32>(
    f: &mut fmt::Formatter<W>,
    heading: &str,
    count: usize,
    number: F,
) -> fmt::Result
    requires { F.IsAlwaysCallable number }
{
    write!(f, "; {heading}")?;
    for i in 0..count {
        write!(f, " {}", number(i))?;
    }
    Ok(())
}

// Of a ledger the free tokens, the marking of the ground places and the open grants.
#[derive(Drop)]
pub struct Standing<'a, P: Plant>(pub &'a Ledger<P>, pub Shown);

impl<P: Plant> fmt::Display for Standing<'_, P> {
    fn fmt<W: fmt::Write>(&self, f: &mut fmt::Formatter<W>) -> fmt::Result {
        let Standing(ledger, shown) = self;
        write_row(f, "free", shown.places, |p| ledger.free(p))?;
        write_row(f, "marked", shown.ground_places, |p| ledger.marking(p))?;
        write_row(f, "open", shown.moves, |t| ledger.open(t))
    }
}
