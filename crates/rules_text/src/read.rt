// Reads the lines of a rules text, by the order of checks.
ghost use Rattle.std.specs.Prelude.{◌≡◌, ℕ, ◌+◌, ◌^◌, ◌<◌, ◌≤◌, List, [], ◌∷◌, length, pos, ◌≤ℤ◌, ◌<ℤ◌, IfSome};
ghost use Rattle.model.specs.declared.refusal.Refusal.TheVariants.{Field};
ghost use Rattle.model.specs.Sizes.{most_places, most_bytes, bound_digits};
ghost use Rattle.formats.specs.Words.{is_new, fields, last};
ghost use Rattle.formats.specs.Texts.{check};
ghost use Rattle.formats.specs.NetText.{names, place_names};
ghost use Rattle.formats.specs.RulesText.{is_bound, bound_of, rule_shape};
ghost use Rattle.texts.specs.Spans.{checked};
ghost use Rattle.rules_text.specs.Reading.{whole_said, bound_said, LineRead, FixedRead};

use crate::part::SumReader;
use crate::rule::RuleLine;
use formats::fault::TextFault;
use model::refusal::Refusal;
use model::sizes::BOUND_DIGITS;
use net_text::named_net::NamedNet;
use texts::at::At;
use texts::lines::read_line;
use texts::record::Record;
use texts::span::Span;
use texts::words::{is_name, number};

// A rules text that is read against the net that it is for.
#[derive(Clone, Copy)]
pub(crate) struct RulesReader<'a> {
    pub net: &'a NamedNet<'a, 'a>,
    pub text: &'a [u8],
    // a weight is kept for each place
    ghost few_places: { length net.now.places ≤ most_places },
    // the text has passed the checks of a whole text
    ghost short: { length text.now ≤ most_bytes },
    ghost ended: { last text.now ≡ 10 },
}

// The fields of a rule on the line `at`, the first of which starts at `byte`.
#[derive(Clone, Copy)]
pub(crate) struct RuleFields<'a> {
    pub at: At,
    pub byte: usize,
    pub name: &'a [u8],
    pub sum: &'a [u8],
    pub bound: &'a [u8],
    // the bytes of the text up to the start of the bound can be counted
    ghost in_text: { byte + length name.now + 1 + length sum.now + 1 < 2 ^ 64 },
}

// The number that the field writes, if it has no more digits than a bound.
fn whole(field: &[u8]) -> Option<i32>
    ensures value { result ≡ whole_said field.now }
    ensures within { IfSome result (λ z. (pos 0 ≤ℤ z) × (z <ℤ pos (10 ^ bound_digits))) }
{
    number(field, BOUND_DIGITS).map(|n| n as i32)
}

// The bound that the field writes: a number, with a minus before it if it is negative.
fn bound(field: &[u8]) -> Option<i32>
    ensures { result ≡ bound_said field.now }
{
    match field {
        [b'-', digits @ ..] => {
            let n = whole(digits)?;
            (n >= 1).then_some(-n)
        }
        _ => whole(field),
    }
}

// The bound of a rule.
fn read_bound(field: &[u8], at: At, byte: usize) -> Result<i32, TextFault>
    ensures { result ≡ checked (check (is_bound field.now) Field byte ∷ []) at.line (bound_of field.now) }
{
    bound(field).ok_or(at.fault(Refusal::Field, byte))
}

impl RulesReader<'_> {
    // The rule that the fields say; `new` tells whether nothing has its name yet.
    pub(crate) fn read_rule(&self, fields: &RuleFields, new: bool) -> Result<RuleLine, TextFault>
        ensures { (used : List (List ℕ)) → new ≡ is_new used fields.now.name.now → LineRead used (place_names self.now.net.now) fields.now.at.line fields.now.byte fields.now.name.now fields.now.sum.now fields.now.bound.now result }
    {
        let at = fields.at;
        at.check(is_name(fields.name), Refusal::Field, fields.byte)?;
        at.check(new, Refusal::NameTaken, fields.byte)?;
        let sum_at = fields.byte + fields.name.len() + 1;
        let sum = SumReader {
            net: self.net,
            sum: fields.sum,
            at,
            byte: sum_at,
        };
        let weights = sum.read_sum()?;
        let bound = read_bound(fields.bound, at, sum_at + fields.sum.len() + 1)?;
        Ok(RuleLine {
            name: Span {
                start: fields.byte,
                len: fields.name.len(),
            },
            weights,
            bound,
        })
    }

    // The fixed rule, which the first line says.
    pub(crate) fn read_fixed(&self, line: &[u8], at: At) -> Result<RuleLine, TextFault>
        requires line_bound { at.byte + length line.now + 1 < 2 ^ 64 }
        ensures { FixedRead (names self.now.net.now) (place_names self.now.net.now) at.line at.byte (rule_shape (fields line.now)) result }
    {
        match read_line(line, at)? {
            Record::Fixed { name, sum, bound } => {
                let fields = RuleFields {
                    at,
                    byte: at.byte + 6,
                    name,
                    sum,
                    bound,
                };
                self.read_rule(&fields, self.net.is_new(name))
            }
            _ => Err(at.fault(Refusal::NoRecord, at.byte)),
        }
    }
}
