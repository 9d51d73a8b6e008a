// The bank itself.
ghost use Rattle.std.specs.Prelude.{◌≡◌, ◌%◌, ◌^◌, ◌<◌, ◌≤◌};
ghost use Rattle.model.specs.Sizes.{most_places};

// Four places a machine and as many moves as places, 1 to 8 machines. The bit `p` of `tokens` is the token at the place `p`, the
// bit `t` of `letters` tells whether the move `t` is controllable.
#[derive(Drop)]
pub struct Bank {
    pub(crate) count: usize,
    pub(crate) tokens: u32,
    pub(crate) letters: u32,
    ghost some: { 4 ≤ count },
    ghost few: { count ≤ most_places },
    ghost whole: { count % 4 ≡ 0 },
    // no bit of the tokens stands at or beyond the count
    ghost inside: { tokens < 2 ^ count },
}
