// The run of a cell, from its three texts to what is printed.
ghost use Rattle.std.specs.Prelude.{◌≡◌, ◌++◌, Ok, codes, MatchOption, IfOk, OnOk};
ghost use Rattle.formats.specs.NetText.{NetText as NetSaid};
ghost use Rattle.formats.specs.NetText.{names, place_names};
ghost use Rattle.formats.specs.RulesText.{RulesText as RulesSaid};
ghost use Rattle.formats.specs.RulesText.{read_rules, rules_meaning};
ghost use Rattle.formats.specs.NetClauses.{net_meaning};
ghost use Rattle.formats.specs.declared.fault.TextFault.{TextFault};
ghost use Rattle.formats.specs.Texts.{Proper, fault, written};
ghost use Rattle.net_text.specs.Nets.{net_of};
ghost use Rattle.panel.specs.Prints.{bad_line};
ghost use Rattle.panel.specs.Orders.{Started, Answered, ran};
ghost use Rattle.panel.specs.Cells.{cell_of};
ghost use Rattle.panel.specs.Said.{cell_said};
ghost use Rattle.panel.specs.Run.{by_rules, printed};
ghost use Rattle.panel.specs.Bad.{OrdersDecided, TextsOf, BadPrinted};
ghost use Rattle.panel.specs.Naming.{NamesRead};

use crate::obey::obey_all;
use crate::order::typed;
use crate::print::put_bad;
use crate::said::Said;
use formats::kind::Kind;
use layers::pile::build;
use ledger::ledger::Ledger;
use model::refusal::Refusal;
use net_text::named_net::NamedNet;
use net_text::reader::read_net;
use plant::plant::Plant;
use rules_text::names::NamedRules;
use rules_text::reader::read_rules;
use std::alloc::{AllocError, Global};
use texts::at::At;
use texts::lines::check_text;
use texts::stop::ReadError;

// What stops a reader: a text that is refused, or no memory.
fn put_stop(out: &mut Vec<u8>, which: &[u8], stop: ReadError) -> Result<(), AllocError>
    ensures { OnOk result ((fault : TextFault) × (stop ≡ ReadError.Refused fault) × (out.new.items ≡ out.old.items ++ bad_line which.now fault)) }
{
    match stop {
        ReadError::Refused(fault) => put_bad(out, which, fault),
        ReadError::NoMemory => Err(AllocError),
    }
}

// `bad fixed NUMBER 1 0`: the fixed rule is refused.
fn put_bad_fixed(out: &mut Vec<u8>, refusal: Refusal) -> Result<(), AllocError>
    ensures { OnOk result (out.new.items ≡ out.old.items ++ bad_line (codes "fixed") (fault refusal 1 0)) }
{
    let start = At { line: 1, byte: 0 };
    put_bad(out, b"fixed", start.fault(refusal, 0))
}

// The orders on a plant that was made: with a monitor for the fixed rule, a board for the others, and a ledger on top. The pile that
// the ledger is opened on is one that can be built.
fn run_made<P: Plant + Drop>(
    out: &mut Vec<u8>,
    said: &Said,
    made: Option<P>,
    orders: &[u8],
) -> Result<(), AllocError>
    requires { MatchOption made ⊥ (λ plant. (P.Net.net plant ≡ (cell_said said.now).net) × (P.Plant.tokens plant ≡ (cell_said said.now).free)) }
    ensures printed { OnOk result (out.new.items ≡ out.old.items ++ ran (cell_said said.now) orders.now) }
    ensures built { Started (cell_said said.now) orders.now }
{
    let Some(plant) = made else { unreachable!() };
    if let Err(fault) = check_text(orders) {
        return put_bad(out, b"orders", fault);
    }
    match build(plant, &typed(&said.rules.rules.fixed)) {
        Ok(pile) => {
            let mut ledger = Ledger::new(pile);
            obey_all(out, said, &mut ledger, orders)
        }
        Err(fault) => put_bad_fixed(out, fault.refusal),
    }
}

// The orders on the plant that the net text tells of, by its kind.
fn run_net(out: &mut Vec<u8>, said: &Said, orders: &[u8]) -> Result<(), AllocError>
    requires { Proper net_meaning said.now.net.now }
    ensures printed { OnOk result (out.new.items ≡ out.old.items ++ ran (cell_said said.now) orders.now) }
    ensures built { Started (cell_said said.now) orders.now }
{
    let net = said.net;
    let net = net.net;
    // Kept: three plants behind one trait, each of a type of its own. A pile holds its plant by value, which no `dyn Plant` is, so each
    // arm makes its plant and hands it on.
    match net.kind {
        Kind::Net => run_made(out, said, table::make::make(net), orders),
        Kind::Bank => run_made(out, said, bank::making::make(net), orders),
        Kind::Line => run_made(out, said, line::making::make(net), orders),
    }
}

// The rules and the orders, on a net that was read.
fn run_rules<'a>(
    alloc: Global,
    out: &mut Vec<u8>,
    net: &'a NamedNet<'a, 'a>,
    text: &'a [u8],
    orders: &[u8],
) -> Result<(), AllocError>
    requires { Proper net_meaning net.now }
    ensures printed { OnOk result (out.new.items ≡ out.old.items ++ by_rules net.now (read_rules (names net.now) (place_names net.now) text.now) orders.now) }
    ensures built { OnOk result ((y : RulesSaid) → read_rules (names net.now) (place_names net.now) text.now ≡ Ok y → Started (cell_of net.now y) orders.now) }
{
    match read_rules(alloc, net, text) {
        Ok(rules) => {
            let rules = NamedRules {
                rules: &rules,
                text,
            };
            let said = Said { net, rules };
            run_net(out, &said, orders)
        }
        Err(stop) => put_stop(out, b"rules", stop),
    }
}

// What the program prints for its net, its rules and its orders.
pub fn panel(alloc: Global, net: &[u8], rules: &[u8], orders: &[u8]) -> Result<Vec<u8>, AllocError>
    ensures printed { IfOk result (λ v. v.items ≡ printed net.now rules.now orders.now) }
    ensures proper { (x : NetSaid) (y : RulesSaid) → TextsOf x y net.now rules.now → IfOk result (λ v. v.items ≡ ran (cell_of x y) orders.now) }
    ensures built { (x : NetSaid) (y : RulesSaid) → TextsOf x y net.now rules.now → IfOk result (λ v. Answered (cell_of x y) orders.now v.items) }
    ensures refused { IfOk result (λ v. BadPrinted net.now rules.now orders.now v.items) }
{
    let mut out = Vec::new(alloc);
    match read_net(alloc, net) {
        Ok(read) => {
            let read = NamedNet {
                net: &read,
                text: net,
            };
            run_rules(alloc, &mut out, &read, rules, orders)?
        }
        Err(stop) => put_stop(&mut out, b"net", stop)?,
    }
    Ok(out)
}

// Each orders text passes the checks of the whole text or is refused with one fault, never both.
pub fn orders_decided()
    ensures { OrdersDecided }
{}

// Of two proper texts each order is what its word and the name in it say.
pub fn names_read()
    ensures { (x : NetSaid) (y : RulesSaid) → Proper net_meaning x → Proper (rules_meaning (names x) (place_names x)) y → NamesRead x y }
{}
