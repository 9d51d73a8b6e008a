// Looking names up.
ghost use Rattle.std.specs.Prelude.{◌≡◌, ℕ, ◌+◌, ◌<◌, ◌≤◌, length, IfSome};
ghost use Rattle.std.specs.Str.{bytes_eq};
ghost use Rattle.formats.specs.Words.{is_new};
ghost use Rattle.texts.specs.Spans.{part_of, titles_of, found};
ghost use Rattle.texts.specs.declared.span.Span.{Span};

use crate::span::Span;

// What has a name that is a part of a text.
pub trait Named {
    ghost title: { Self → Span };

    fn name(&self) -> Span
        ensures { result ≡ title self.now };
}

// The bytes of a span of the text; what of it lies beyond the text is left out.
pub fn part<'a>(text: &'a [u8], span: Span) -> &'a [u8]
    ensures { result.now ≡ part_of text.now span }
{
    let start = span.start.min(text.len());
    let len = span.len.min(text.len() - start);
    &text[start..start + len]
}

// Whether two names are the same. Names that differ are mostly told apart by their last byte, as numbered ones are.
fn is_same(a: &[u8], b: &[u8]) -> bool
    ensures { result ≡ bytes_eq a.now b.now }
{
    a.last() == b.last() && a == b
}

// The index of the first item whose name, as a part of the text, is `name`.
pub fn find<N: Named>(items: &[N], text: &[u8], name: &[u8]) -> Option<usize>
    ensures value { result ≡ found (titles_of text.now N.Named.title items.now) name.now }
    ensures within { IfSome result (λ i. i < length items.now) }
{
    items
        .iter()
        .position(|item| is_same(part(text, item.name()), name))
}

// Whether no item has the name.
pub fn lacks<N: Named>(items: &[N], text: &[u8], name: &[u8]) -> bool
    ensures { result ≡ is_new (titles_of text.now N.Named.title items.now) name.now }
{
    find(items, text, name).is_none()
}
