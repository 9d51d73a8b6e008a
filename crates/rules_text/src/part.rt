// One part of a sum: a number and a star, if it has them, and the name of a place.
ghost use Rattle.std.specs.Prelude.{◌≡◌, ℕ, Bool, ◌+◌, ◌^◌, ◌<◌, ◌≤◌, length, drop, min, IfOk, IfSome};
ghost use Rattle.std.specs.List.{prefix_len};
ghost use Rattle.model.specs.Sizes.{most_places, name_tail};
ghost use Rattle.formats.specs.NetText.{place_names};
ghost use Rattle.formats.specs.Words.{is_digit, index_of};
ghost use Rattle.formats.specs.Sums.{begins_name, body_at};
ghost use Rattle.texts.specs.Numbers.{is_word};
ghost use Rattle.texts.specs.Spans.{checked};
ghost use Rattle.rules_text.specs.Sums.{Tells, next_at, piece_at, number_of, factor_of, Rest, number_checks, name_checks, term_checks, title_of, term_at};

use formats::fault::TextFault;
use model::refusal::Refusal;
use model::sizes::FACTOR_DIGITS;
use net_text::named_net::NamedNet;
use texts::at::At;
use texts::words::{NAME_TAIL, is_digit, is_letter, is_word, number};

// The most bytes that a name has.
pub const MOST_NAME: usize = NAME_TAIL + 1;

// What stands next in a sum, by which it goes on.
#[derive(Clone, Copy)]
pub enum Next {
    Plus,
    Minus,
    Times,
    Other,
    End,
}

// A part as it is read: its number, 1 where it has none, its place, and where the place's name starts and ends.
#[derive(Clone, Copy)]
pub struct Term {
    pub number: u32,
    pub place: usize,
    pub name: usize,
    pub end: usize,
}

// A sum that is read against a net: the field, which stands on the line `at` and starts at `byte`.
#[derive(Clone, Copy)]
pub(crate) struct SumReader<'a> {
    pub net: &'a NamedNet<'a, 'a>,
    pub sum: &'a [u8],
    pub at: At,
    pub byte: usize,
    // a weight is kept for each place
    ghost few_places: { length net.now.places ≤ most_places },
    // the bytes of the text up to the end of the sum can be counted
    ghost in_text: { byte + length sum.now + 1 < 2 ^ 64 },
}

// What stands at `i`.
// Kept: the match on the next sign with the signs as literal cases is a form that is decided (docs/DECISIONS.md).
pub(crate) fn next_at(sum: &[u8], i: usize) -> Next
    ensures { result ≡ next_at sum.now i }
{
    match sum.get(i) {
        Some(b'+') => Next::Plus,
        Some(b'-') => Next::Minus,
        Some(b'*') => Next::Times,
        Some(_) => Next::Other,
        None => Next::End,
    }
}

// How many bytes at the front pass the test.
fn len_of<F: Fn(u8) -> bool>(bytes: &[u8], test: F) -> usize
    requires { F.IsAlwaysCallable test }
    ensures value { (f : ℕ → Bool) → Tells (F.post test) f → result ≡ prefix_len f bytes.now }
    ensures within { result ≤ length bytes.now }
{
    bytes
        .iter()
        .take_while(
            |b|
                requires { F.pre test b.now.now }
                ensures { F.post test b.now.now result }
            { test(**b) },
        )
        .count()
}

// Whether a name begins at `i`.
fn begins_name(sum: &[u8], i: usize) -> bool
    ensures { result ≡ begins_name (piece_at sum.now i) }
{
    sum.get(i).is_some_and(|b| is_letter(*b))
}

// The number before a star: 1 to 99, with no leading zero.
fn factor(digits: &[u8]) -> Option<u32>
    ensures value { result ≡ factor_of digits.now }
    ensures within { IfSome result (λ n. n ≤ 99) }
{
    number(digits, FACTOR_DIGITS).filter(|n| *n >= 1)
}

// Kept: `start_within` is what the slice of the sum, a form that is decided, asks. A `get(start..)` would have an answer to give for
// a start that no caller has; a struct of this reader and a start with that bound would be built for a part and again for its name,
// and all below would read `self.reader.at` for `self.at`.
impl SumReader<'_> {
    // Where the digits from `start` on end.
    fn digits_end(&self, start: usize) -> usize
        requires start_within { start ≤ length self.now.sum.now }
        ensures value { result ≡ start + prefix_len is_digit (drop start self.now.sum.now) }
        ensures within { result ≤ length self.now.sum.now }
    {
        start + len_of(&self.sum[start..], is_digit)
    }

    // Where the name from `start` on ends, which is as long as names can be at most.
    fn name_end(&self, start: usize) -> usize
        requires start_within { start ≤ length self.now.sum.now }
        ensures value { result ≡ start + min (name_tail + 1) (prefix_len is_word (drop start self.now.sum.now)) }
        ensures within { result ≤ length self.now.sum.now }
    {
        start + len_of(&self.sum[start..], is_word).min(MOST_NAME)
    }

    // The number of the part that starts at `start`, 1 where it has none, and where its name starts.
    fn read_number(&self, start: usize) -> Result<(u32, usize), TextFault>
        requires start_within { start ≤ length self.now.sum.now }
        ensures value { result ≡ checked (number_checks (self.now.byte + start) (piece_at self.now.sum.now start)) self.now.at.line (number_of (piece_at self.now.sum.now start), start + body_at (piece_at self.now.sum.now start)) }
        ensures within { IfOk result (λ r. (r.0 ≤ 99) × (r.1 ≤ length self.now.sum.now)) }
        ensures rest { IfOk result (λ r. Rest self.now.sum.now start r.1) }
    {
        let end = self.digits_end(start);
        if end == start {
            return Ok((1, start));
        }
        let n = factor(&self.sum[start..end]).ok_or(
            self.at.fault(Refusal::Sum, self.byte + start),
        )?;
        match next_at(self.sum, end) {
            Next::Times => Ok((n, end + 1)),
            _ => Err(self.at.fault(Refusal::Sum, self.byte + end)),
        }
    }

    // The place whose name starts at `start`, and where the name ends.
    fn read_name(&self, start: usize) -> Result<(usize, usize), TextFault>
        requires start_within { start ≤ length self.now.sum.now }
        ensures value { result ≡ checked (name_checks (place_names self.now.net.now) (self.now.byte + start) (piece_at self.now.sum.now start)) self.now.at.line (index_of (place_names self.now.net.now) (title_of (piece_at self.now.sum.now start)), start + length (title_of (piece_at self.now.sum.now start))) }
        ensures within { IfOk result (λ r. (r.0 < length self.now.net.now.places) × (r.1 ≤ length self.now.sum.now)) }
    {
        let byte = self.byte + start;
        self.at
            .check(begins_name(self.sum, start), Refusal::Sum, byte)?;
        let end = self.name_end(start);
        let place = self
            .net
            .find_place(&self.sum[start..end])
            .ok_or(self.at.fault(Refusal::NameUnknown, byte))?;
        Ok((place, end))
    }

    // The part that starts at `start`.
    pub(crate) fn read_term(&self, start: usize) -> Result<Term, TextFault>
        requires start_within { start ≤ length self.now.sum.now }
        ensures value { result ≡ checked (term_checks (place_names self.now.net.now) (self.now.byte + start) (piece_at self.now.sum.now start)) self.now.at.line (term_at (place_names self.now.net.now) start (piece_at self.now.sum.now start)) }
        ensures within { IfOk result (λ t. (t.number ≤ 99) × (t.place < length self.now.net.now.places) × (t.end ≤ length self.now.sum.now)) }
        ensures rest { IfOk result (λ t. Rest self.now.sum.now start t.name) }
    {
        let (number, name) = self.read_number(start)?;
        let (place, end) = self.read_name(name)?;
        Ok(Term {
            number,
            place,
            name,
            end,
        })
    }
}
