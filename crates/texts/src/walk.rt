// The lines of a text, one after another, each with where it stands.
ghost use Rattle.std.specs.Prelude.{◌≡◌, ◌+◌, ◌^◌, ◌<◌, ◌≤◌, length};

use crate::at::At;
use crate::words::until;

// The lines that are still to come: what is left of the text, and where that starts.
#[derive(Drop)]
pub struct Lines<'a> {
    rest: &'a [u8],
    at: At,
    // So that the lines and the bytes can be counted.
    ghost fits: { (at.byte + length rest.now < 2 ^ 63) × (at.line ≤ at.byte + 1) },
}

impl<'a> Lines<'a> {
    ghost use Rattle.texts.specs.Walking.{numbered_lines, lines_left};

    // All lines of the text.
    pub fn new(text: &'a [u8]) -> Lines<'a>
        ensures { lines_left result ≡ numbered_lines text.now }
    {
        Lines {
            rest: text,
            at: At { line: 1, byte: 0 },
        }
    }
}

impl<'a> Iterator for Lines<'a> {
    ghost use Rattle.std.specs.Iterator.{YieldsFirstBy, item_count};
    ghost use Rattle.texts.specs.Walking.{line_seen, lines_left};

    type Item = (At, &'a [u8]);

    ghost next_gives = { YieldsFirstBy line_seen lines_left };

    ghost remaining = { item_count lines_left };

    // Kept: a `split_inclusive` at the newlines would not tell the byte where a line starts, which would be counted as here, and would
    // give the newline too, to be taken off by `strip_suffix(b"\n").unwrap_or(line)`; a `split` gives an empty line after the last.
    fn next(&mut self) -> Option<(At, &'a [u8])> {
        if self.rest.is_empty() {
            return None;
        }
        let at = self.at;
        let line = &self.rest[..until(self.rest, 0, b'\n')];
        let past = (line.len() + 1).min(self.rest.len());
        self.rest = &self.rest[past..];
        self.at = At {
            line: at.line + 1,
            byte: at.byte + past,
        };
        Some((at, line))
    }
}
