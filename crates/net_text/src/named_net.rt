// A net with its text, and the names of its places and moves as parts of the text.
ghost use Rattle.std.specs.Prelude.{◌≡◌, ◌^◌, ◌<◌, length, slice_get, IfSome};
ghost use Rattle.std.specs.Option.{option_map};
ghost use Rattle.formats.specs.Words.{is_new};
ghost use Rattle.formats.specs.NetText.{names, place_names, move_names};
ghost use Rattle.texts.specs.Spans.{titles_of, found};

use crate::net::NetText;
use std::marker::Model;
use texts::names::{Named, find, lacks, part};

// The name of the item `i`, as a part of the text.
pub fn name_at<'a, N: Named>(items: &[N], text: &'a [u8], i: usize) -> Option<&'a [u8]>
    ensures { option_map (λ x. x.now) result ≡ slice_get (titles_of text.now N.Named.title items.now) i }
{
    items.get(i).map(|item| part(text, item.name()))
}

// A net as it was read, with the text that its names are parts of; a name lives as long as the text. A contract sees the net that
// they say.
// Kept: beside `NamedRules` of `rules_text`; a struct for both, of some `T` and its text, would share two fields and no method, and
// only a net has the `Model` below: read rules have weights where their text has sums, so that no view gives the text's value.
#[derive(Drop)]
pub struct NamedNet<'n, 'a> {
    pub net: &'n NetText,
    pub text: &'a [u8],
}

impl<'n, 'a> Model for NamedNet<'n, 'a> {
    ghost use Rattle.formats.specs.NetText.{NetText};
    ghost use Rattle.net_text.specs.Nets.{net_of};

    ghost Value = { NetText };

    ghost view = { λ n. net_of n.text.now n.net.now };
}

impl<'n, 'a> NamedNet<'n, 'a> {
    // How many places there are.
    pub fn place_count(&self) -> usize
        ensures value { result ≡ length self.now.places }
        ensures small { result < 2 ^ 63 }
    {
        self.net.places.len()
    }

    // The name of the place `p`.
    pub fn place_name(&self, p: usize) -> Option<&'a [u8]>
        ensures { option_map (λ x. x.now) result ≡ slice_get (place_names self.now) p }
    {
        name_at(&self.net.places, self.text, p)
    }

    // The name of the move `t`.
    pub fn move_name(&self, t: usize) -> Option<&'a [u8]>
        ensures { option_map (λ x. x.now) result ≡ slice_get (move_names self.now) t }
    {
        name_at(&self.net.moves, self.text, t)
    }

    // The place of that name.
    pub fn find_place(&self, name: &[u8]) -> Option<usize>
        ensures value { result ≡ found (place_names self.now) name.now }
        ensures within { IfSome result (λ p. p < length self.now.places) }
    {
        find(&self.net.places, self.text, name)
    }

    // The move of that name.
    pub fn find_move(&self, name: &[u8]) -> Option<usize>
        ensures value { result ≡ found (move_names self.now) name.now }
        ensures within { IfSome result (λ t. t < length self.now.moves) }
    {
        find(&self.net.moves, self.text, name)
    }

    // Whether neither a place nor a move has the name.
    pub fn is_new(&self, name: &[u8]) -> bool
        ensures { result ≡ is_new (names self.now) name.now }
    {
        lacks(&self.net.places, self.text, name) && lacks(&self.net.moves, self.text, name)
    }
}
