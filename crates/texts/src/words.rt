// Names and numbers, and where a byte stands.
ghost use Rattle.std.specs.Prelude.{◌≡◌, ◌+◌, ◌<◌, ◌≤◌, min, ◌&&◌, length, drop, nat_le};
ghost use Rattle.std.specs.List.{prefix_len};
ghost use Rattle.model.specs.Sizes.{name_tail};
ghost use Rattle.formats.specs.Words.{is_letter, is_digit, is_name, is_not, all};
ghost use Rattle.texts.specs.Numbers.{is_word, digits_of, number_of, most_digits};

// The most bytes of a name after its first letter.
pub const NAME_TAIL: usize = 11;

// The most digits of which every number fits 32 bits.
pub const MOST_DIGITS: usize = 9;

// Where the byte `b` first stands from `start` on; the end of the text, or `start` beyond it, if nowhere.
// Kept: `start`, though both callers ask from 0: the edit `until_from_the_start` turns it, and it is a rule of the project that an edit
// stays with the meaning that it has.
pub fn until(text: &[u8], start: usize, b: u8) -> usize
    ensures value { result ≡ start + prefix_len (is_not b) (drop start text.now) }
    ensures within { start ≤ length text.now → result ≤ length text.now }
{
    let rest = &text[start.min(text.len())..];
    start + rest.iter().position(|c| *c == b).unwrap_or(rest.len())
}

pub fn is_letter(b: u8) -> bool
    ensures { result ≡ is_letter b }
{
    b.is_ascii_alphabetic()
}

pub fn is_digit(b: u8) -> bool
    ensures { result ≡ is_digit b }
{
    b.is_ascii_digit()
}

// Whether the byte is a letter or a digit.
pub fn is_word(b: u8) -> bool
    ensures { result ≡ is_word b }
{
    b.is_ascii_alphanumeric()
}

// Whether all bytes are letters or digits.
fn all_word(bytes: &[u8]) -> bool
    ensures { result ≡ all is_word bytes.now }
{
    bytes.iter().all(|b| is_word(*b))
}

// What may follow the first letter of a name.
fn is_tail(rest: &[u8]) -> bool
    ensures { result ≡ (all is_word rest.now && nat_le (length rest.now) name_tail) }
{
    all_word(rest) && rest.len() <= NAME_TAIL
}

// Whether the field is a name: a letter, then up to `NAME_TAIL` letters or digits.
pub fn is_name(field: &[u8]) -> bool
    ensures { result ≡ is_name field.now }
{
    match field {
        [] => false,
        [first, rest @ ..] => is_letter(*first) && is_tail(rest),
    }
}

// The number that a few digits write; none where a byte is no digit.
// Kept: a `try_fold` would be no plainer: its closure would hold the same test and the same sum.
fn digits_value(field: &[u8]) -> Option<u32>
    requires { length field.now ≤ most_digits }
    ensures { result ≡ digits_of field.now }
{
    let mut value = 0;
    for b in field {
        if !is_digit(*b) {
            return None;
        }
        value = value * 10 + u32::from(*b - b'0');
    }
    Some(value)
}

// The number that the field writes, if it is one of at most `digits` digits: no leading zero, except 0 itself. Never more than
// `MOST_DIGITS` are read.
pub fn number(field: &[u8], digits: usize) -> Option<u32>
    ensures { result ≡ number_of (min digits most_digits) field.now }
{
    match field {
        [] | [b'0', _, ..] => None,
        _ if field.len() <= digits.min(MOST_DIGITS) => digits_value(field),
        _ => None,
    }
}
