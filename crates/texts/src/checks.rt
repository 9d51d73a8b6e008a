// The checks of a line's fields, each with the refusal and the byte if it fails.
ghost use Rattle.std.specs.Prelude.{◌≡◌, min, [], ◌∷◌};
ghost use Rattle.model.specs.declared.refusal.Refusal.TheVariants.{Field};
ghost use Rattle.formats.specs.Words.{is_numeral, value, index_of};
ghost use Rattle.formats.specs.Texts.{check, fault};
ghost use Rattle.formats.specs.ReadNet.{known_checks};
ghost use Rattle.texts.specs.Numbers.{most_digits};
ghost use Rattle.texts.specs.Spans.{titles_of, checked};

use crate::at::At;
use crate::names::{Named, find};
use crate::words::{is_name, number};
use formats::fault::TextFault;
use model::refusal::Refusal;

impl At {
    // A refusal on this line.
    pub fn fault(self, refusal: Refusal, byte: usize) -> TextFault
        ensures { result ≡ fault refusal self.line byte }
    {
        TextFault {
            refusal,
            line: self.line,
            byte,
        }
    }

    // Refuses, at `byte`, unless the test holds.
    pub fn check(self, holds: bool, refusal: Refusal, byte: usize) -> Result<(), TextFault>
        ensures { result ≡ checked (check holds refusal byte ∷ []) self.line tt }
    {
        if holds {
            Ok(())
        } else {
            Err(self.fault(refusal, byte))
        }
    }

    // The number of a field of at most `digits` digits.
    // Kept: a struct of a field, its line and its byte would be written at each call, `Field { text, at, byte }.number(digits)` for
    // `at.number(text, digits, byte)`, and a line has one `at` for all its fields.
    pub fn number(self, field: &[u8], digits: usize, byte: usize) -> Result<u32, TextFault>
        ensures { result ≡ checked (check (is_numeral (min digits most_digits) field.now) Field byte ∷ []) self.line (value field.now) }
    {
        number(field, digits).ok_or(self.fault(Refusal::Field, byte))
    }

    // The index of the item that the field names.
    pub fn known<N: Named>(
        self,
        items: &[N],
        text: &[u8],
        field: &[u8],
        byte: usize,
    ) -> Result<usize, TextFault>
        ensures { result ≡ checked (known_checks (titles_of text.now N.Named.title items.now) byte field.now) self.line (index_of (titles_of text.now N.Named.title items.now) field.now) }
    {
        self.check(is_name(field), Refusal::Field, byte)?;
        find(items, text, field).ok_or(self.fault(Refusal::NameUnknown, byte))
    }
}
