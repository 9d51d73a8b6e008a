// Where a line stands in its text: its number, from 1, and the byte at which it starts.
#[derive(Clone, Copy)]
pub struct At {
    pub line: usize,
    pub byte: usize,
}

// Where a refusal of the whole text stands.
pub const WHOLE: At = At { line: 0, byte: 0 };
