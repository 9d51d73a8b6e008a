// Runs a table of cases through the panel, one line each, and prints what comes out of each.
//
// A line of cases.txt is `title | net | rules | orders`. In the texts a blank stands for a tab, a comma for a newline,
// `\XX` for the byte with those two hexadecimal digits, and `{N*TEXT}` for N times TEXT. Nothing in a field is malformed
// (src/notation.rt has the rest), and a field that is missing is empty. What is printed for a case is `title | print`,
// with a blank for a tab and a comma for a newline.
#![tactic(auto)]

pub mod marked;
mod notation;

use notation::{decode, encode};
use panel::run::panel;
use std::alloc::{AllocError, Global};
use std::io::Write;
use std::{array, fs, io};

// A field without the one blank at either end that sets it off from the bars.
fn trimmed(field: &[u8]) -> &[u8] {
    let field = field.strip_prefix(b" ").unwrap_or(field);
    field.strip_suffix(b" ").unwrap_or(field)
}

// Adds what is printed for one case: its title, and what the panel prints for it.
fn run_case(heap: Global, line: &[u8], out: &mut Vec<u8>) -> Result<(), AllocError> {
    let mut fields = line.splitn(4, |b| *b == b'|');
    let [title, net, rules, orders]: [&[u8]; 4] = array::from_fn(|_| fields
        .next()
        .unwrap_or_default());
    let net = decode(heap, trimmed(net))?;
    let rules = decode(heap, trimmed(rules))?;
    let orders = decode(heap, trimmed(orders))?;
    let printed = panel(heap, &net, &rules, &orders)?;
    out.extend_from_slice(title)?;
    out.extend_from_slice(b"| ")?;
    encode(out, &printed)?;
    out.push(b'\n')?;
    Ok(())
}

fn run(rt: &HostRuntime) -> io::Result<()> {
    let table = fs::read(rt, "cases.txt")?;
    let mut out = Vec::new(rt.alloc());
    // A line is what a newline ends: what follows the last one is left out.
    for line in table
        .split_inclusive(|b| *b == b'\n')
        .filter_map(|line| line.strip_suffix(b"\n"))
    {
        if !line.is_empty() && !line.starts_with(b"#") {
            run_case(rt.alloc(), line, &mut out)?;
        }
    }
    rt.stdout().write_all(&out)
}

fn main(rt: HostRuntime) -> io::Result<()> {
    run(&rt)
}
