// What every text is made of and how its lines are read: bytes, names, numbers, lines and their records, and the checks of fields.
#![tactic(auto)]

pub mod at;
pub mod checks;
pub mod error;
pub mod lines;
pub mod names;
pub mod record;
pub mod span;
pub mod stop;
pub mod walk;
pub mod words;
