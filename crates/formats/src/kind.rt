// The kinds of plant that a net text can be of.
#[derive(Clone, Copy, PartialEq, Eq, Debug)]
pub enum Kind {
    Net,
    Bank,
    Line,
}
