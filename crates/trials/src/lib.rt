// Trials of tables by chance, the trie beside the plain scan of the list: what the programs `soak` and `rounds` are made of.
#![tactic(auto)]

mod chance;
mod compare;
mod counts;
mod damage;
mod ends;
mod tables;

pub use chance::Chance;
pub use compare::{agree, try_change};
pub use counts::Counts;
pub use damage::{Seen, look_everywhere};
pub use ends::{behind, prefix_of};
pub use tables::empty_table;
