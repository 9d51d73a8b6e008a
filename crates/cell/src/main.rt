// The setter's program: reads cell.net, cell.rules and the orders, and writes what the panel prints.
#![tactic(auto)]

use panel::run::panel;
use std::io::{ErrorKind, Read, Write};
use std::{fs, io};

// The bytes of a file; none where there is no such file.
fn read_or_empty(rt: &HostRuntime, path: &str) -> io::Result<Vec<u8>> {
    match fs::read(rt, path) {
        Err(e) if e.kind() == ErrorKind::NotFound => Ok(Vec::new(rt.alloc())),
        read => read,
    }
}

fn run(rt: &HostRuntime) -> io::Result<()> {
    let net = read_or_empty(rt, "cell.net")?;
    let rules = read_or_empty(rt, "cell.rules")?;
    let mut orders = Vec::new(rt.alloc());
    rt.stdin().read_to_end(&mut orders)?;
    let printed = panel(rt.alloc(), &net, &rules, &orders)?;
    rt.stdout().write_all(&printed)
}

fn main(rt: HostRuntime) -> io::Result<()> {
    run(&rt)
}

#[cfg(test)]
mod tests {
    use super::*;

    #[test]
    fn missing_file_is_empty(rt: HostRuntime) -> io::Result<()> {
        let read = read_or_empty(&rt, "no.such.file")?;
        assert!(rt; read.is_empty());
        Ok(())
    }

    #[test]
    fn folder_is_no_file(rt: HostRuntime) {
        assert!(rt; read_or_empty(&rt, ".").is_err());
    }
}
