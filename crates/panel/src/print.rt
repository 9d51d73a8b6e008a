// Printing: each function adds what it prints to the bytes so far.
ghost use Rattle.std.specs.Prelude.{◌≡◌, ◌++◌, OnOk};
ghost use Rattle.panel.specs.Prints.{bad_line, at_line, ok_line, refused_line};

use formats::fault::TextFault;
use model::refusal::Refusal;
use std::alloc::AllocError;
use std::io::Write;

// `bad WHICH NUMBER LINE BYTE`: a text is refused.
pub(crate) fn put_bad(out: &mut Vec<u8>, which: &[u8], fault: TextFault) -> Result<(), AllocError>
    ensures { OnOk result (out.new.items ≡ out.old.items ++ bad_line which.now fault) }
{
    out.extend_from_slice(b"bad\t")?;
    out.extend_from_slice(which)?;
    writeln!(
        out,
        "\t{}\t{}\t{}",
        fault.refusal.number(),
        fault.line,
        fault.byte
    )
    .map_err(|_| AllocError)
}

// `at NAME FREE`: the free tokens of a place.
pub(crate) fn put_at(out: &mut Vec<u8>, name: &[u8], free: u32) -> Result<(), AllocError>
    ensures { OnOk result (out.new.items ≡ out.old.items ++ at_line name.now free) }
{
    out.extend_from_slice(b"at\t")?;
    out.extend_from_slice(name)?;
    writeln!(out, "\t{free}").map_err(|_| AllocError)
}

// `ok`: a call is accepted.
pub(crate) fn put_ok(out: &mut Vec<u8>) -> Result<(), AllocError>
    ensures { OnOk result (out.new.items ≡ out.old.items ++ ok_line) }
{
    out.extend_from_slice(b"ok\n")
}

// `no NUMBER MOVE PLACE`: an order is refused, with the move and the place by name, `-` where there is none.
pub(crate) fn put_no(
    out: &mut Vec<u8>,
    refusal: Refusal,
    transition: &[u8],
    place: &[u8],
) -> Result<(), AllocError>
    ensures { OnOk result (out.new.items ≡ out.old.items ++ refused_line refusal transition.now place.now) }
{
    out.extend_from_slice(b"no\t")?;
    write!(out, "{}", refusal.number()).map_err(|_| AllocError)?;
    out.extend_from_slice(b"\t")?;
    out.extend_from_slice(transition)?;
    out.extend_from_slice(b"\t")?;
    out.extend_from_slice(place)?;
    out.extend_from_slice(b"\n")
}
