// The line that a net text tells of.
ghost use Rattle.std.specs.Prelude.{Decides};
ghost use Rattle.line.specs.Making.{LineText, Made};

use crate::line::{Line, PLACES};
use crate::slot::Slot;
use formats::kind::Kind;
use net_text::net::NetText;
use plant::front::front;

// Whether a line can be made of the net.
fn is_line(net: &NetText) -> bool
    ensures { Decides result (LineText net.now) }
{
    let count = net.places.len();
    matches!(net.kind, Kind::Line)
        && 1 <= count
        && count <= PLACES
        && net.moves.len() == count + 1
        && net.arcs.is_empty()
        && net.all_filled()
}

// The line that the net text tells of, if it tells of one.
pub fn make(net: &NetText) -> Option<Line>
    ensures { Made net.now result }
{
    if !is_line(net) {
        return None;
    }
    Some(Line {
        count: net.places.len(),
        slots: front(&net.places, Slot::NONE, Slot::of),
        controllable: front(&net.moves, false, |read| read.controllable),
    })
}
