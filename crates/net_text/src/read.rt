// Reads the lines of a net text, by the order of checks.
ghost use Rattle.std.specs.Prelude.{◌≡◌, ◌+◌, ◌^◌, ◌<◌, ◌≤◌, [], ◌∷◌, length, codes, vec_items, IfOk};
ghost use Rattle.std.specs.Str.{bytes_eq};
ghost use Rattle.model.specs.Sizes.{most_places, most_moves};
ghost use Rattle.model.specs.declared.refusal.Refusal.TheVariants.{NoRecord, TooMany};
ghost use Rattle.formats.specs.Words.{value, index_of};
ghost use Rattle.formats.specs.Texts.{check};
ghost use Rattle.formats.specs.NetText.{place_names, move_names};
ghost use Rattle.formats.specs.ReadNet.{name_checks, kind_checks, place_line_checks, count_checks, place_checks, move_line_checks, letter_checks, move_checks, weight_checks, pair_checks, arc_checks, kind_of};
ghost use Rattle.net_text.specs.Joined.{Marks};
ghost use Rattle.texts.specs.Spans.{span, checked};

use crate::joined::Joined;
use crate::named_net::NamedNet;
use crate::net::{Arc, Move, NetText, Place};
use formats::fault::TextFault;
use formats::kind::Kind;
use model::refusal::Refusal;
use model::sizes::{ARC_DIGITS, COUNT_DIGITS, MOST_MOVES, MOST_PLACES};
use texts::at::At;
use texts::span::Span;
use texts::words::is_name;

// A net text, the net that its lines so far say, and which place and move its arcs join.
#[derive(Drop)]
pub(crate) struct NetReader<'a> {
    pub(crate) text: &'a [u8],
    pub(crate) net: NetText,
    pub(crate) joined: Joined,
    ghost few_places: { length (vec_items net.places) ≤ most_places },
    ghost few_moves: { length (vec_items net.moves) ≤ most_moves },
    ghost marks: { Marks joined (vec_items net.arcs) },
}

// The kind of plant that a field names.
// Kept: here and below `field, at, byte` stand side by side; a struct of the three would be built in each call and read apart in each
// function, as `field.text` in the match and `field.at.fault(.., field.byte)` in the refusal.
pub(crate) fn read_kind(field: &[u8], at: At, byte: usize) -> Result<Kind, TextFault>
    ensures { result ≡ checked (kind_checks byte field.now) at.line (kind_of field.now) }
{
    match field {
        b"net" => Ok(Kind::Net),
        b"bank" => Ok(Kind::Bank),
        b"line" => Ok(Kind::Line),
        _ => Err(at.fault(Refusal::Field, byte)),
    }
}

// Whether a move is controllable, by its letter.
fn read_letter(field: &[u8], at: At, byte: usize) -> Result<bool, TextFault>
    ensures { result ≡ checked (letter_checks byte field.now) at.line (bytes_eq field.now (codes "c")) }
{
    match field {
        b"c" => Ok(true),
        b"u" => Ok(false),
        _ => Err(at.fault(Refusal::Field, byte)),
    }
}

// The tokens and the limit of a place line, where TOKENS starts at `byte`.
fn read_counts(tokens: &[u8], limit: &[u8], at: At, byte: usize) -> Result<(u32, u32), TextFault>
    requires { byte + length tokens.now + 1 < 2 ^ 64 }
    ensures { result ≡ checked (count_checks byte tokens.now limit.now) at.line (value tokens.now, value limit.now) }
{
    let count = at.number(tokens, COUNT_DIGITS, byte)?;
    let limit_at = byte + tokens.len() + 1;
    let most = at.number(limit, COUNT_DIGITS, limit_at)?;
    at.check(1 <= most, Refusal::Field, limit_at)?;
    at.check(count <= most, Refusal::Field, byte)?;
    Ok((count, most))
}

// What a move takes and gives, where TAKE starts at `byte`.
fn read_weights(take: &[u8], give: &[u8], at: At, byte: usize) -> Result<(u32, u32), TextFault>
    requires { byte + length take.now + 1 < 2 ^ 64 }
    ensures { result ≡ checked (weight_checks byte take.now give.now) at.line (value take.now, value give.now) }
{
    let taken = at.number(take, ARC_DIGITS, byte)?;
    let given = at.number(give, ARC_DIGITS, byte + take.len() + 1)?;
    at.check(taken >= 1 || given >= 1, Refusal::Field, byte)?;
    Ok((taken, given))
}

// Refuses a line that comes out of order, or one too many of its kind.
fn check_turn(at: At, in_order: bool, has_room: bool) -> Result<(), TextFault>
    ensures { result ≡ checked (check in_order NoRecord at.byte ∷ check has_room TooMany at.byte ∷ []) at.line tt }
{
    at.check(in_order, Refusal::NoRecord, at.byte)?;
    at.check(has_room, Refusal::TooMany, at.byte)
}

impl<'a> NetReader<'a> {
    ghost use Rattle.net_text.specs.Reading.{so_far};

    // Refuses a field that is no name, or one that a place or a move has.
    fn check_new_name(&self, field: &[u8], at: At, byte: usize) -> Result<(), TextFault>
        ensures { result ≡ checked (name_checks (so_far self.now) byte field.now) at.line tt }
    {
        at.check(is_name(field), Refusal::Field, byte)?;
        let so_far = NamedNet {
            net: &self.net,
            text: self.text,
        };
        at.check(so_far.is_new(field), Refusal::NameTaken, byte)
    }

    // A place line comes before all moves and arcs, and there is room for one more.
    fn check_place_line(&self, at: At) -> Result<(), TextFault>
        ensures { result ≡ checked (place_line_checks (so_far self.now) at.byte) at.line tt }
    {
        let in_order = self.net.moves.is_empty() && self.net.arcs.is_empty();
        check_turn(at, in_order, self.net.places.len() < MOST_PLACES)
    }

    // A move line comes before all arcs, and there is room for one more.
    fn check_move_line(&self, at: At) -> Result<(), TextFault>
        ensures { result ≡ checked (move_line_checks (so_far self.now) at.byte) at.line tt }
    {
        check_turn(
            at,
            self.net.arcs.is_empty(),
            self.net.moves.len() < MOST_MOVES,
        )
    }

    // An arc joins a place and a move once, and only in a plant of the kind net.
    fn check_pair(&self, at: At, place: usize, transition: usize) -> Result<(), TextFault>
        requires { (place < most_places) × (transition < most_moves) }
        ensures { result ≡ checked (pair_checks (so_far self.now) at.byte place transition) at.line tt }
    {
        at.check(
            !self.joined.has(place, transition),
            Refusal::ArcNotAllowed,
            at.byte,
        )?;
        at.check(
            matches!(self.net.kind, Kind::Net),
            Refusal::ArcNotAllowed,
            at.byte,
        )
    }

    // The place that the fields of a place line say.
    pub(crate) fn read_place(
        &self,
        at: At,
        name: &[u8],
        tokens: &[u8],
        limit: &[u8],
    ) -> Result<Place, TextFault>
        requires { at.byte + 6 + length name.now + 1 + length tokens.now + 1 < 2 ^ 64 }
        ensures { result ≡ checked (place_checks (so_far self.now) at.byte name.now tokens.now limit.now) at.line (record { name = span (at.byte + 6) (length name.now); tokens = value tokens.now; limit = value limit.now }) }
    {
        self.check_place_line(at)?;
        let name_at = at.byte + 6;
        self.check_new_name(name, at, name_at)?;
        let (tokens, limit) = read_counts(tokens, limit, at, name_at + name.len() + 1)?;
        Ok(Place {
            name: Span {
                start: name_at,
                len: name.len(),
            },
            tokens,
            limit,
        })
    }

    // The move that the fields of a move line say.
    pub(crate) fn read_move(&self, at: At, name: &[u8], letter: &[u8]) -> Result<Move, TextFault>
        requires { at.byte + 5 + length name.now + 1 < 2 ^ 64 }
        ensures { result ≡ checked (move_checks (so_far self.now) at.byte name.now letter.now) at.line (record { name = span (at.byte + 5) (length name.now); controllable = bytes_eq letter.now (codes "c") }) }
    {
        self.check_move_line(at)?;
        let name_at = at.byte + 5;
        self.check_new_name(name, at, name_at)?;
        let controllable = read_letter(letter, at, name_at + name.len() + 1)?;
        Ok(Move {
            name: Span {
                start: name_at,
                len: name.len(),
            },
            controllable,
        })
    }

    // The arc that the fields of an arc line say.
    pub(crate) fn read_arc(
        &self,
        at: At,
        place: &[u8],
        transition: &[u8],
        take: &[u8],
        give: &[u8],
    ) -> Result<Arc, TextFault>
        requires { at.byte + 4 + length place.now + 1 + length transition.now + 1 + length take.now + 1 < 2 ^ 64 }
        ensures answer { result ≡ checked (arc_checks (so_far self.now) at.byte place.now transition.now take.now give.now) at.line (record { place = index_of (place_names (so_far self.now)) place.now; transition = index_of (move_names (so_far self.now)) transition.now; take = value take.now; give = value give.now }) }
        ensures inside { IfOk result (λ a. (a.place < most_places) × (a.transition < most_moves)) }
    {
        let place_at = at.byte + 4;
        let p = at.known(&self.net.places, self.text, place, place_at)?;
        let move_at = place_at + place.len() + 1;
        let t = at.known(&self.net.moves, self.text, transition, move_at)?;
        let (take, give) = read_weights(take, give, at, move_at + transition.len() + 1)?;
        self.check_pair(at, p, t)?;
        Ok(Arc {
            place: p,
            transition: t,
            take,
            give,
        })
    }
}
