// Plants from the net texts beside the program.
use bank::bank::Bank;
use line::line::Line;
use net_text::net::NetText;
use net_text::reader::read_net;
use std::{fs, io};
use table::table::Table;

// What is made of the net text at the path, or an error with these words where nothing can be made of it.
// Kept: bench has the same function and its three calls. A library crate for both would have to promise something; tried: an `Ok` answer
// was made by `make` from a net that some text reads as. The check did not close `returns` without answers, and no program needs that
// fact.
fn made<P, F: FnOnce(&NetText) -> Option<P>>(
    rt: &HostRuntime,
    path: &str,
    make: F,
    words: &str,
) -> io::Result<P>
    requires { F.IsAlwaysCallable make }
{
    let text = fs::read(rt, path)?;
    let net = read_net(rt.alloc(), &text).map_err(|_| io::Error::other("a net text is refused"))?;
    make(&net).ok_or_else(|| io::Error::other(words))
}

pub fn make_table(rt: &HostRuntime, path: &str) -> io::Result<Table> {
    made(rt, path, table::make::make, "a net text is no table's")
}

pub fn make_bank(rt: &HostRuntime, path: &str) -> io::Result<Bank> {
    made(rt, path, bank::making::make, "a net text is no bank's")
}

pub fn make_line(rt: &HostRuntime, path: &str) -> io::Result<Line> {
    made(rt, path, line::making::make, "a net text is no line's")
}
