// The text side of a routing table, for `lines` and the programs that serve a table: a line is read into a command, and commands, addresses, refusals and replies are written.
#![tactic(auto)]

mod addresses;
mod laws;
mod lines;
mod numerals;
mod refusals;
mod replies;

pub use addresses::Dotted;
pub use laws::{command_round_trip, dotted_round_trip};
pub use lines::{Command, Line, read};
pub use refusals::Refusal;
pub use replies::Reply;
