// The whole table in one lent row: the ordered route list, the default and the trie. docs/TABLE.md has the row's format, and specs/Right.antt says when a row is right.
#![tactic(auto)]

mod anew;
mod changes;
mod entries;
mod follows;
pub mod laws;
mod lends;
mod makes;
mod parts;
mod tables;
mod words;

pub use entries::{
    Change, Done, Refusal, apply, carry_out, look, make_anew, nodes, put_entry, take_away,
};
pub use makes::{Misfit, make_empty, row_length};
pub use parts::lookup;
pub use tables::Table;
