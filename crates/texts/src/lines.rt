// What every text must be, its lines, and the record of a line.
ghost use Rattle.std.specs.Prelude.{◌≡◌, ◌==◌, ℕ, ◌+◌, ◌<◌, ◌≤◌, [], ◌∷◌, length, not, position, count_by, IfSome};
ghost use Rattle.std.specs.Option.{option_map};
ghost use Rattle.formats.specs.Words.{is_allowed, fields};
ghost use Rattle.formats.specs.Texts.{is_text, fault};
ghost use Rattle.formats.specs.NetClauses.{shape};
ghost use Rattle.formats.specs.RulesText.{rule_shape};
ghost use Rattle.texts.specs.Lines.{bytes_check, text_check, rest_fields, RecordOf, LineRead};

use crate::at::{At, WHOLE};
use crate::record::Record;
use crate::words::until;
use formats::fault::TextFault;
use model::refusal::Refusal;
use model::sizes::MOST_BYTES;

// A text has at least one byte, at most `MOST_BYTES`, and ends in a newline.
fn is_text(text: &[u8]) -> bool
    ensures { result ≡ is_text text.now }
{
    text.len() <= MOST_BYTES && text.last() == Some(&b'\n')
}

fn is_allowed(b: u8) -> bool
    ensures { result ≡ is_allowed b }
{
    matches!(b, b'\t' | b'\n' | 33..=126)
}

// Where the first byte stands that no text may have.
fn first_bad(text: &[u8]) -> Option<usize>
    ensures value { result ≡ position (λ b. not (is_allowed b)) text.now }
    ensures within { IfSome result (λ i. i < length text.now) }
{
    text.iter().position(|b| !is_allowed(*b))
}

// How many lines end in the bytes.
fn count_ends(bytes: &[u8]) -> usize
    ensures value { result ≡ count_by (λ b. b == 10) bytes.now }
    ensures within { result ≤ length bytes.now }
{
    bytes.iter().filter(|b| **b == b'\n').count()
}

// Refuses the first byte that no text may have.
fn check_bytes(text: &[u8]) -> Result<(), TextFault>
    ensures { result ≡ bytes_check text.now }
{
    let Some(byte) = first_bad(text) else {
        return Ok(());
    };
    let line = 1 + count_ends(&text[..byte]);
    Err(At { line, byte }.fault(Refusal::Byte, byte))
}

// The checks of a whole text, before any of its lines is read.
pub fn check_text(text: &[u8]) -> Result<(), TextFault>
    ensures { result ≡ text_check text.now }
{
    WHOLE.check(is_text(text), Refusal::Form, 0)?;
    check_bytes(text)
}

// The first field of a line and, if a tab ends it, what follows.
// Kept: `line.splitn(2, |b| *b == b'\t')` would give the same two parts in as many lines, with a default, `unwrap_or(line)`, for a
// first part that is always there.
pub fn cut<'a>(line: &'a [u8]) -> (&'a [u8], Option<&'a [u8]>)
    ensures { fields line.now ≡ result.0.now ∷ rest_fields (option_map (λ x. x.now) result.1) }
{
    let tab = until(line, 0, b'\t');
    (&line[..tab], line.get(tab + 1..))
}

// The record of a line of four fields.
fn of_four<'a>(word: &[u8], a: &'a [u8], b: &'a [u8], c: &'a [u8]) -> Option<Record<'a>>
    ensures { RecordOf (word.now ∷ a.now ∷ b.now ∷ c.now ∷ []) result }
{
    match word {
        b"place" => Some(Record::Place {
            name: a,
            tokens: b,
            limit: c,
        }),
        b"fixed" => Some(Record::Fixed {
            name: a,
            sum: b,
            bound: c,
        }),
        b"rule" => Some(Record::Rule {
            name: a,
            sum: b,
            bound: c,
        }),
        _ => None,
    }
}

// The record of a line, if it is one, by its word and its count of fields.
fn record_of<'a>(line: &'a [u8]) -> Option<Record<'a>>
    ensures { RecordOf (fields line.now) result }
{
    let (word, rest) = cut(line);
    let (a, rest) = cut(rest?);
    let Some(rest) = rest else {
        return match word {
            b"plant" => Some(Record::Plant { kind: a }),
            _ => None,
        };
    };
    let (b, rest) = cut(rest);
    let Some(rest) = rest else {
        return match word {
            b"move" => Some(Record::Move { name: a, letter: b }),
            _ => None,
        };
    };
    let (c, rest) = cut(rest);
    let Some(rest) = rest else {
        return of_four(word, a, b, c);
    };
    let (d, rest) = cut(rest);
    let None = rest else {
        return None;
    };
    match word {
        b"arc" => Some(Record::Arc {
            place: a,
            transition: b,
            take: c,
            give: d,
        }),
        _ => None,
    }
}

// The record of a line, which stands at `at`.
pub fn read_line<'a>(line: &'a [u8], at: At) -> Result<Record<'a>, TextFault>
    ensures { LineRead (fields line.now) at result }
{
    record_of(line).ok_or(at.fault(Refusal::NoRecord, at.byte))
}
