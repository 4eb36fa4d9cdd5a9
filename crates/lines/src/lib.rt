// The text side of a routing table for `serve`: `text` reads and writes what a line asks of the table, and here come the commands `list` and `help` and lines of bytes.
#![tactic(auto)]

mod commands;
mod laws;
mod lines;

pub use commands::Command;
pub use laws::command_round_trip;
pub use lines::{Line, read};
pub use text::{Dotted, Refusal, dotted_round_trip};
