// What a net text says, as it is read.
use formats::kind::Kind;
use texts::span::Span;

#[derive(Clone, Copy)]
pub struct Place {
    pub name: Span,
    // what stands there at the start
    pub tokens: u32,
    pub limit: u32,
}

#[derive(Clone, Copy)]
pub struct Move {
    pub name: Span,
    pub controllable: bool,
}

// What one move takes from one place, and gives to it; both by their index, from 0.
#[derive(Clone, Copy)]
pub struct Arc {
    pub place: usize,
    pub transition: usize,
    pub take: u32,
    pub give: u32,
}

// The kind, the places, the moves and the arcs, in the order of their lines.
#[derive(Drop)]
pub struct NetText {
    pub kind: Kind,
    pub places: Vec<Place>,
    pub moves: Vec<Move>,
    pub arcs: Vec<Arc>,
}
