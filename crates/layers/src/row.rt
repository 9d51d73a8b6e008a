// A row of a layer, plain: what keeps it in order is with the rows that hold it.
ghost use Rattle.std.specs.Prelude.{◌≡◌, ◌+◌, pos, nat_lt, slice_index_or};
ghost use Rattle.layers.specs.Rows.{row_of, rule_row};
ghost use Rattle.model.specs.Layer.{blank};
ghost use Rattle.model.specs.Sizes.{control_limit};

use model::sizes::{CONTROL_LIMIT, MOST_MOVES};

// By how much each move raises the rule, the tokens that are free, and whether a rule is set.
// Kept: `in_use` is no `Option` of the arcs and the tokens: a board has twelve plain row structs by decision, and of a row without
// a rule the arcs and the tokens are asked too. They are 0, which `take`, `give` and `free` would each have to say of `None`.
#[derive(Clone, Copy)]
pub struct Row {
    pub(crate) raises: [i32; MOST_MOVES],
    pub(crate) free: u32,
    pub(crate) in_use: bool,
}

impl Row {
    // A row without a rule.
    pub(crate) fn blank() -> Self
        ensures { row_of result ≡ blank }
    {
        Row {
            raises: [0; MOST_MOVES],
            free: 0,
            in_use: false,
        }
    }

    // By how much the move `t` raises the rule; by nothing if there can be no such move.
    fn raise(&self, t: usize) -> i32
        ensures { result ≡ slice_index_or self.now.raises t (pos 0) }
    {
        self.raises.get(t).copied().unwrap_or(0)
    }

    // What the move `t` takes here: what it raises the rule by.
    pub(crate) fn take(&self, t: usize) -> u32
        ensures { result ≡ (row_of self.now).take t }
    {
        self.raise(t).max(0) as u32
    }

    // What the move `t` gives here: what it lowers the rule by.
    pub(crate) fn give(&self, t: usize) -> u32
        ensures { result ≡ (row_of self.now).give t }
    {
        self.raise(t).min(0).unsigned_abs()
    }

    // Whether so many tokens more would go over the limit.
    pub(crate) fn goes_over(&self, added: u32) -> bool
        ensures { result ≡ nat_lt control_limit ((row_of self.now).free + added) }
    {
        self.free.saturating_add(added) > CONTROL_LIMIT
    }

    // Makes this the row of a rule, by what each move raises it, with so many tokens.
    pub(crate) fn set_rule(&mut self, raises: &[i32; MOST_MOVES], free: u32)
        ensures { row_of self.new ≡ rule_row (λ t. slice_index_or raises.now t (pos 0)) free }
    {
        self.raises = *raises;
        self.free = free;
        self.in_use = true;
    }
}
