// The sizes that cells keep within, once for all code; `specs/Sizes.antt` has the same numbers for the contracts, with what they are.

// of a text
pub const MOST_BYTES: usize = 16_384;

pub const MOST_RULES: usize = 12;

// the digits of tokens and limits, of an arc, of a rule's bound, and of a number before a star
pub const COUNT_DIGITS: usize = 3;

pub const ARC_DIGITS: usize = 1;

pub const BOUND_DIGITS: usize = 6;

pub const FACTOR_DIGITS: usize = 2;

// of a net: ground places, all places, moves, and on ground places arcs and limits
pub const MOST_PLACES: usize = 32;

pub const MOST_ALL_PLACES: usize = 64;

pub const MOST_MOVES: usize = 32;

pub const MOST_ARC: u32 = 9;

pub const MOST_LIMIT: u32 = 999;

// of a rule, typed and worked
pub const MOST_WEIGHT: i32 = 99;

pub const MOST_BOUND: i32 = 999_999;

pub const MOST_ROUNDS: u32 = 64;

pub const MOST_WORKED_WEIGHT: i32 = 9_999;

pub const MOST_WORKED_BOUND: i32 = 99_999_999;

// of a layer
pub const BOARD_ROWS: usize = 12;

pub const CONTROL_LIMIT: u32 = 2_000_000_000;

// of a ledger: the open grants, in all
pub const MOST_OPEN: u32 = 200;
