// A short run by hand on a plant of each kind: to full, to empty, and the refusals with their places. For each call its
// answer is printed, a refusal by its number, and the tokens at every place after it.
#![tactic(auto)]

use formats::kind::Kind;
use model::fault::Fault;
use net_text::reader::read_net;
use plant::net::Net;
use plant::plant::Plant;
use std::{fmt, fs, io};

// A call of a plant, with its move.
// Kept: drills has the same enum, print and loop over calls. A library crate for both would have to promise, by a match on the call, what
// `make` answers and leaves of the plant's net and tokens, and by `output` what `Display` writes: each would say again what the `match`
// below says, and no program needs it.
#[derive(Clone, Copy)]
enum Call {
    Begin(usize),
    Finish(usize),
    Back(usize),
}

use Call::{Back, Begin, Finish};

impl Call {
    fn make<P: Plant>(self, plant: &mut P) -> Result<(), Fault> {
        match self {
            Begin(t) => plant.begin(t),
            Finish(t) => plant.finish(t),
            Back(t) => plant.back(t),
        }
    }
}

impl fmt::Display for Call {
    fn fmt<W: fmt::Write>(&self, f: &mut fmt::Formatter<W>) -> fmt::Result {
        match self {
            Begin(t) => write!(f, "begin {t}"),
            Finish(t) => write!(f, "finish {t}"),
            Back(t) => write!(f, "back {t}"),
        }
    }
}

// An answer: a refusal by its number, with its place.
#[derive(Drop)]
struct Told(Result<(), Fault>);

impl fmt::Display for Told {
    fn fmt<W: fmt::Write>(&self, f: &mut fmt::Formatter<W>) -> fmt::Result {
        let Err(fault) = self.0 else {
            return f.write_str("passed");
        };
        write!(f, "{}", fault.refusal.number())?;
        match fault.spot {
            Some(spot) => write!(f, " at place {}", spot.place),
            None => Ok(()),
        }
    }
}

// The tokens at every place.
#[derive(Drop)]
struct Tokens<'a, P>(&'a P);

impl<P: Plant> fmt::Display for Tokens<'_, P> {
    fn fmt<W: fmt::Write>(&self, f: &mut fmt::Formatter<W>) -> fmt::Result {
        for p in 0..self.0.places() {
            write!(f, " {}", self.0.free(p))?;
        }
        Ok(())
    }
}

// Runs the calls on a plant, if it was made.
fn run_calls<P: Plant + Drop>(
    rt: &HostRuntime,
    plant: Option<P>,
    calls: &[Call],
) -> io::Result<()> {
    let Some(mut plant) = plant else {
        return println!(rt; "not made");
    };
    for call in calls {
        let answer = call.make(&mut plant);
        println!(rt; "{call}: {};{}", Told(answer), Tokens(&plant))?;
    }
    Ok(())
}

// Reads a net, makes its plant and runs the calls on it.
fn run_net(rt: &HostRuntime, path: &str, calls: &[Call]) -> io::Result<()> {
    println!(rt; "{path}")?;
    let text = fs::read(rt, path)?;
    let Ok(net) = read_net(rt.alloc(), &text) else {
        return println!(rt; "not read");
    };
    match net.kind {
        Kind::Net => run_calls(rt, table::make::make(&net), calls),
        Kind::Bank => run_calls(rt, bank::making::make(&net), calls),
        Kind::Line => run_calls(rt, line::making::make(&net), calls),
    }
}

// A rack and a bench. Move 0 takes one from the rack and gives one to it and two to the bench; move 1 takes one from the
// rack and two from the bench.
fn run_table(rt: &HostRuntime) -> io::Result<()> {
    let calls = [
        Begin(1),
        Finish(0),
        Begin(0),
        Begin(0),
        Begin(0),
        Begin(1),
        Finish(0),
        Finish(0),
        Back(0),
        Back(0),
        Begin(1),
        Begin(1),
        Begin(1),
        Back(1),
        Back(1),
        Begin(2),
    ];
    run_net(rt, "table.net", &calls)
}

// One machine.
fn run_bank(rt: &HostRuntime) -> io::Result<()> {
    let calls = [
        Begin(1),
        Finish(3),
        Finish(0),
        Finish(1),
        Finish(2),
        Finish(2),
        Back(3),
        Begin(3),
        Begin(3),
        Finish(3),
        Back(3),
        Begin(0),
        Begin(1),
        Begin(2),
        Begin(3),
        Begin(0),
        Finish(4),
    ];
    run_net(rt, "bank.net", &calls)
}

// Two places, of two and of one.
fn run_line(rt: &HostRuntime) -> io::Result<()> {
    let calls = [
        Begin(0),
        Begin(1),
        Begin(2),
        Finish(0),
        Finish(0),
        Finish(0),
        Finish(1),
        Finish(1),
        Back(1),
        Back(2),
        Begin(1),
        Back(1),
        Begin(2),
        Finish(2),
        Begin(1),
        Begin(1),
        Begin(1),
        Back(3),
    ];
    run_net(rt, "line.net", &calls)
}

fn run(rt: &HostRuntime) -> io::Result<()> {
    run_table(rt)?;
    run_bank(rt)?;
    run_line(rt)
}

fn main(rt: HostRuntime) -> io::Result<()> {
    run(&rt)
}

#[cfg(test)]
mod tests {
    use super::*;

    fn free_at(plant: &dyn Plant, p: usize) -> u32 {
        plant.free(p)
    }

    fn begin_one(plant: &mut dyn Plant, t: usize) -> Result<(), Fault> {
        plant.begin(t)
    }

    // A plant can stand behind `dyn`, as a table does here.
    #[test]
    fn table_behind_dyn(rt: HostRuntime) -> io::Result<()> {
        let text = b"plant\tnet\nplace\tA\t1\t1\nmove\ttake\tc\narc\tA\ttake\t1\t0\n";
        let net = read_net(rt.alloc(), text).map_err(|_| io::Error::other("not read"))?;
        let mut plant = table::make::make(&net).ok_or_else(|| io::Error::other("not made"))?;
        assert!(rt; begin_one(&mut plant, 0).is_ok());
        assert!(rt; free_at(&plant, 0) == 0);
        assert!(rt; begin_one(&mut plant, 0).is_err());
        Ok(())
    }
}
