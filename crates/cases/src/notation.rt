// The notation of the table of cases. Nothing in a field is malformed: a digit is one of 0-9a-f, in a count too, and any
// other byte in its place counts as 0; an escape or a count that the field's end cuts off gives nothing; a repeated text
// that no brace closes is there once; a brace that opens or closes nothing is a plain byte.
use std::alloc::{AllocError, Global};

// What the decoder is in the middle of.
#[derive(Clone, Copy)]
enum State {
    Text,
    // after a backslash; after its first digit
    Escape,
    EscapeLow(u8),
    // after an opening brace: the count so far
    Count(usize),
}

// The text after a star: how often it is to be there, and where it begins in the output.
#[derive(Clone, Copy)]
struct Repeated {
    count: usize,
    start: usize,
}

// What a field stands for, as far as it is read.
#[derive(Drop)]
struct Decoder {
    out: Vec<u8>,
    state: State,
    // the repeated text that is open
    open: Option<Repeated>,
}

fn hex(b: u8) -> u8 {
    match b {
        b'0'..=b'9' => b - b'0',
        b'a'..=b'f' => b - b'a' + 10,
        _ => 0,
    }
}

// The byte that a plain character of the notation stands for.
fn plain(b: u8) -> u8 {
    match b {
        b' ' => b'\t',
        b',' => b'\n',
        _ => b,
    }
}

impl Decoder {
    // Reads one byte more.
    fn step(&mut self, heap: Global, b: u8) -> Result<(), AllocError> {
        self.state = match self.state {
            State::Text => self.text(heap, b)?,
            State::Escape => State::EscapeLow(hex(b)),
            State::EscapeLow(high) => {
                self.out.push((high << 4) | hex(b))?;
                State::Text
            }
            State::Count(count) if b == b'*' => {
                let start = self.out.len();
                self.open = Some(Repeated { count, start });
                State::Text
            }
            State::Count(n) => State::Count(
                n.saturating_mul(10).saturating_add(usize::from(hex(b))),
            ),
        };
        Ok(())
    }

    // Reads one byte more of the text, in or outside a repeated one: the state after it.
    fn text(&mut self, heap: Global, b: u8) -> Result<State, AllocError> {
        match (b, self.open) {
            (b'\\', _) => return Ok(State::Escape),
            (b'{', None) => return Ok(State::Count(0)),
            (b'}', Some(repeated)) => {
                self.repeat(heap, repeated)?;
                self.open = None;
            }
            _ => self.out.push(plain(b))?,
        }
        Ok(State::Text)
    }

    // Makes the text that is open, which is there once, be there so often as its count says.
    fn repeat(&mut self, heap: Global, repeated: Repeated) -> Result<(), AllocError> {
        let once: Vec<u8> = self.out.iter().skip(repeated.start).copied().collect(heap)?;
        self.out.truncate(repeated.start);
        for _ in 0..repeated.count {
            self.out.extend_from_slice(&once)?;
        }
        Ok(())
    }
}

// The bytes that a field of the table stands for.
pub fn decode(heap: Global, field: &[u8]) -> Result<Vec<u8>, AllocError> {
    let mut decoder = Decoder {
        out: Vec::new(heap),
        state: State::Text,
        open: None,
    };
    for b in field {
        decoder.step(heap, *b)?;
    }
    Ok(decoder.out)
}

// Adds what is printed, with a blank for a tab and a comma for a newline.
pub fn encode(out: &mut Vec<u8>, printed: &[u8]) -> Result<(), AllocError> {
    out.extend(
        printed.iter().map(|b| match *b {
            b'\t' => b' ',
            b'\n' => b',',
            b => b,
        }),
    )
}
