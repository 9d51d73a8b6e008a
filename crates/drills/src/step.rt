// Lists of calls, each with its answer and what it leaves.
use crate::show::Told;
use model::fault::Fault;
use std::{fmt, io};

// A call on a plant or on a ledger.
pub trait Step<S>: fmt::Display {
    fn make(&self, subject: &mut S) -> Result<(), Fault>;
}

// Each call with its answer, and what `show` prints of the plant or ledger after it.
pub fn run_steps<S, C: Step<S>, F: Fn(&S) -> io::Result<()>>(
    rt: &HostRuntime,
    subject: &mut S,
    steps: &[C],
    show: F,
) -> io::Result<()>
    requires { F.IsAlwaysCallable show }
{
    for step in steps {
        let answer = step.make(subject);
        print!(rt; "{step}: {}", Told(answer))?;
        show(subject)?;
    }
    Ok(())
}
