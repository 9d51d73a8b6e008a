// The reader of the net text.
ghost use Rattle.std.specs.Prelude.{◌≡◌, ◌+◌, ◌^◌, ◌<◌, ◌≤◌, length, drop, Some, Ok, Err, OnOk, ◌==◌};
ghost use Rattle.model.specs.Sizes.{most_bytes};
ghost use Rattle.formats.specs.declared.kind.Kind.TheVariants.{Bank, Line};
ghost use Rattle.formats.specs.Words.{all, fields, last};
ghost use Rattle.formats.specs.Texts.{ended};
ghost use Rattle.formats.specs.NetClauses.{shape};
ghost use Rattle.formats.specs.NetClauses.Shape.{a_place, a_move, an_arc};
ghost use Rattle.formats.specs.ReadNet.{is_shaped, is_whole, net_reader};
ghost use Rattle.texts.specs.Lines.{shape_of};
ghost use Rattle.texts.specs.Spans.{Told};
ghost use Rattle.texts.specs.Walking.{numbered_lines, read_on, lines_left};
ghost use Rattle.net_text.specs.Nets.{net_of};
ghost use Rattle.net_text.specs.Reading.{so_far, LineAdded, plant_read, end_read, Stands, Located, line_count, NetRead};

use crate::joined::Joined;
use crate::net::NetText;
use crate::read::{NetReader, read_kind};
use formats::fault::TextFault;
use formats::kind::Kind;
use model::refusal::Refusal;
use std::alloc::Global;
use texts::at::{At, WHOLE};
use texts::lines::{check_text, read_line};
use texts::record::Record;
use texts::stop::ReadError;
use texts::walk::Lines;

impl<'a> NetReader<'a> {
    // Adds the place that the fields of a place line say.
    // Kept: this and the next two differ in the reading and in the `Vec`, and an arc marks its pair besides; all that a generic function of
    // a `Vec` and a read item could share is the one call of `push`.
    fn add_place(
        &mut self,
        at: At,
        name: &[u8],
        tokens: &[u8],
        limit: &[u8],
    ) -> Result<(), ReadError>
        requires stands { Stands self.old.text.now at.byte (a_place name.now tokens.now limit.now) }
        ensures { LineAdded self.old self.new at (a_place name.now tokens.now limit.now) result }
    {
        let place = self.read_place(at, name, tokens, limit)?;
        self.net.places.push(place)?;
        Ok(())
    }

    // Adds the move that the fields of a move line say.
    fn add_move(&mut self, at: At, name: &[u8], letter: &[u8]) -> Result<(), ReadError>
        requires stands { Stands self.old.text.now at.byte (a_move name.now letter.now) }
        ensures { LineAdded self.old self.new at (a_move name.now letter.now) result }
    {
        let read = self.read_move(at, name, letter)?;
        self.net.moves.push(read)?;
        Ok(())
    }

    // Adds the arc that the fields of an arc line say.
    fn add_arc(
        &mut self,
        at: At,
        place: &[u8],
        transition: &[u8],
        take: &[u8],
        give: &[u8],
    ) -> Result<(), ReadError>
        requires stands { Stands self.old.text.now at.byte (an_arc place.now transition.now take.now give.now) }
        ensures { LineAdded self.old self.new at (an_arc place.now transition.now take.now give.now) result }
    {
        let arc = self.read_arc(at, place, transition, take, give)?;
        self.net.arcs.push(arc)?;
        self.joined.add(arc.place, arc.transition);
        Ok(())
    }

    // Adds what a line says to the net; no record of a first line or of the rules text may come here.
    // Kept: like `add_record` and `read_lines` of `rules_text`; a trait of both would have this match in each impl and, to share the
    // loop's four lines, five ghost items: the text, the lines so far, the order of checks, what is said, and where names stand.
    fn add_record(&mut self, at: At, line: Record<'_>) -> Result<(), ReadError>
        requires stands { Stands self.old.text.now at.byte (shape_of line) }
        ensures { LineAdded self.old self.new at (shape_of line.entry) result }
    {
        match line {
            Record::Place {
                name,
                tokens,
                limit,
            } => self.add_place(at, name, tokens, limit),
            Record::Move { name, letter } => self.add_move(at, name, letter),
            Record::Arc {
                place,
                transition,
                take,
                give,
            } => self.add_arc(at, place, transition, take, give),
            Record::Plant { .. } | Record::Fixed { .. } | Record::Rule { .. } => {
                Err(at.fault(Refusal::NoRecord, at.byte).into())
            }
        }
    }

    // Reads the lines that are still to come.
    fn read_lines(&mut self, lines: Lines<'_>) -> Result<(), ReadError>
        requires text_bound { (length self.old.text.now ≤ most_bytes) × (last self.old.text.now ≡ 10) }
        requires to_come { lines_left lines ≡ drop (line_count self.old.net + 1) (numbered_lines self.old.text.now) }
        requires located { Located self.old.text.now self.old.net }
        ensures text { self.new.text.now ≡ self.old.text.now }
        ensures answer { Told result (λ _. read_on net_reader (Some (so_far self.old)) (length self.old.text.now) (lines_left lines.entry) ≡ ended net_reader (Some (net_of self.old.text.now self.new.net)) (length self.old.text.now)) (λ f. read_on net_reader (Some (so_far self.old)) (length self.old.text.now) (lines_left lines.entry) ≡ Err f) }
        ensures located { OnOk result (Located self.old.text.now self.new.net) }
    {
        for (at, line) in lines {
            let read = read_line(line, at)?;
            self.add_record(at, read)?;
        }
        Ok(())
    }
}

// The kind of plant that the first line says.
fn read_plant(line: &[u8], at: At) -> Result<Kind, TextFault>
    requires { at.byte + 6 < 2 ^ 64 }
    ensures { result ≡ plant_read at.line at.byte (shape (fields line.now)) }
{
    match read_line(line, at)? {
        Record::Plant { kind } => read_kind(kind, at, at.byte + 6),
        _ => Err(at.fault(Refusal::NoRecord, at.byte)),
    }
}

impl NetReader<'_> {
    // Whether all places have the limit 1.
    fn all_single(&self) -> bool
        ensures { result ≡ all (λ p. (p.limit == 1)) (so_far self.now).places }
    {
        self.net.places.iter().all(|place| place.limit == 1)
    }

    // A bank has four places a machine, as many moves, and all limits are 1.
    fn is_bank(&self) -> bool
        ensures { result ≡ is_shaped Bank (so_far self.now).places (so_far self.now).moves }
    {
        let places = self.net.places.len();
        places % 4 == 0 && self.net.moves.len() == places && self.all_single()
    }

    // A line has one move more than places.
    fn is_line(&self) -> bool
        ensures { result ≡ is_shaped Line (so_far self.now).places (so_far self.now).moves }
    {
        self.net.moves.len() == self.net.places.len() + 1
    }

    // Whether there are a place and a move, and their counts and limits are those of the kind.
    fn is_whole(&self) -> bool
        ensures { result ≡ is_whole (so_far self.now) }
    {
        if self.net.places.is_empty() || self.net.moves.is_empty() {
            return false;
        }
        match self.net.kind {
            Kind::Net => true,
            Kind::Bank => self.is_bank(),
            Kind::Line => self.is_line(),
        }
    }

    // What the end of the text asks for.
    fn check_end(&self) -> Result<(), TextFault>
        ensures { result ≡ end_read (so_far self.now) (length self.now.text.now) }
    {
        WHOLE.check(self.is_whole(), Refusal::NotOfKind, self.text.len())
    }
}

// Reads a net text: the net that it says, or where it is wrong and why.
pub fn read_net(heap: Global, text: &[u8]) -> Result<NetText, ReadError>
    ensures { NetRead text.now result }
{
    check_text(text)?;
    let mut lines = Lines::new(text);
    let Some((at, first)) = lines.next() else {
        unreachable!();
    };
    let kind = read_plant(first, at)?;
    let net = NetText {
        kind,
        places: Vec::new(heap),
        moves: Vec::new(heap),
        arcs: Vec::new(heap),
    };
    let joined = Joined::none();
    let mut reader = NetReader { text, net, joined };
    reader.read_lines(lines)?;
    reader.check_end()?;
    Ok(reader.net)
}
