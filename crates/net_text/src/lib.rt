// The reader of the net text, proved equal to its definition in `formats`.
#![tactic(auto)]

pub mod filled;
pub mod joined;
pub mod named;
pub mod named_net;
pub mod net;
pub mod read;
pub mod reader;
