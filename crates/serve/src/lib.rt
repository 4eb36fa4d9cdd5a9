// What a line does to a table and what is replied, as functions on values: for the programs that serve a table, and for whoever would serve one in another way.
#![tactic(auto)]

mod commands;
mod input;
mod printing;
mod replies;

pub use commands::{FIRST_ROOM, execute, follow, make, respond};
pub use input::next_line;
pub use printing::Printed;
pub use replies::Reply;
