// Where a text is refused, and why.
use model::refusal::Refusal;

#[derive(Clone, Copy, PartialEq, Eq, Debug)]
pub struct TextFault {
    pub refusal: Refusal,
    // from 1; 0 where the whole text is meant
    pub line: usize,
    // from 0, in the whole text
    pub byte: usize,
}
