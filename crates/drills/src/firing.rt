// Calls that move tokens, on any plant.
use crate::show::Tokens;
use crate::step::{Step, run_steps};
use model::fault::Fault;
use plant::plant::Plant;
use std::{fmt, io};

// A call of a plant, with its move.
// Kept: the program runs has the same enum, print and loop over calls. A library crate for both would have to promise, by a match on
// the call, what `make` answers and leaves of the plant, and by `output` what `Display` writes: each would say again what the `match`
// below says.
#[derive(Clone, Copy)]
pub enum Firing {
    Begin(usize),
    Finish(usize),
    Back(usize),
}

impl<P: Plant> Step<P> for Firing {
    fn make(&self, plant: &mut P) -> Result<(), Fault> {
        match *self {
            Firing::Begin(t) => plant.begin(t),
            Firing::Finish(t) => plant.finish(t),
            Firing::Back(t) => plant.back(t),
        }
    }
}

impl fmt::Display for Firing {
    fn fmt<W: fmt::Write>(&self, f: &mut fmt::Formatter<W>) -> fmt::Result {
        match self {
            Firing::Begin(t) => write!(f, "begin {t}"),
            Firing::Finish(t) => write!(f, "finish {t}"),
            Firing::Back(t) => write!(f, "back {t}"),
        }
    }
}

// Each call with its answer and all tokens after it.
pub fn run_firings<P: Plant>(
    rt: &HostRuntime,
    plant: &mut P,
    firings: &[Firing],
) -> io::Result<()> {
    run_steps(rt, plant, firings, |p| println!(rt; "{}", Tokens(p)))
}
