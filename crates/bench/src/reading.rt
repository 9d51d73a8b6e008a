// Readings of the largest texts, each of 16,384 bytes.
use net_text::named_net::NamedNet;
use net_text::reader::read_net;
use rules_text::reader::read_rules;
use std::{fs, io};

// A reading takes about a thousand times as long as a call.
fn readings(turns: u32) -> u32 {
    (turns / 1000).max(1)
}

// The least that any of the readings found.
fn read_again<F: Fn() -> usize>(readings: u32, read: F) -> usize
    requires { F.IsAlwaysCallable read }
{
    (0..readings).map(|_| read()).min().unwrap_or(0)
}

// Reads a net text of 32 places and 32 moves, again and again.
pub fn run_net(rt: &HostRuntime, turns: u32) -> io::Result<()> {
    let text = fs::read(rt, "largest.net")?;
    let readings = readings(turns);
    let arcs = read_again(readings, || {
        read_net(rt.alloc(), &text).map_or(0, |net| net.arcs.len())
    });
    println!(rt; "net: {arcs} arcs in each of {readings} readings")
}

// Reads a rules text of 13 rules over that net, again and again.
pub fn run_rules(rt: &HostRuntime, turns: u32) -> io::Result<()> {
    let net_text = fs::read(rt, "largest.net")?;
    let net = read_net(rt.alloc(), &net_text).map_err(|_| io::Error::other("the net is refused"))?;
    let named = NamedNet {
        net: &net,
        text: &net_text,
    };
    let text = fs::read(rt, "largest.rules")?;
    let readings = readings(turns);
    let rules = read_again(readings, || {
        read_rules(rt.alloc(), &named, &text).map_or(0, |rules| rules.others.len() + 1)
    });
    println!(rt; "rules: {rules} rules in each of {readings} readings")
}
