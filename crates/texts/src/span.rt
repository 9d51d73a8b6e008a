// A part of a text: the byte at which it starts, and how many bytes it has.
// Kept: a read place that held its name as a `&[u8]` would hold a reference, and no clause could state a `Result` of it by `≡`: the
// value that the order of checks says has the bytes and no address.
#[derive(Clone, Copy)]
pub struct Span {
    pub start: usize,
    pub len: usize,
}
