// The reader of the rules text, proved equal to its definition in `formats`.
#![tactic(auto)]

pub mod named;
pub mod names;
pub mod part;
pub mod read;
pub mod reader;
pub mod rule;
pub mod sum;
