// Nodes for one more prefix, in a lent row of nodes: the way to the prefix is made or found, and the words of its cells are written. What a row holds in between is said by crate `trie`, and that these steps put a prefix there is proved in proofs/Renewals.antt.
#![tactic(auto)]

mod finding;
mod making;
mod masks;
mod nodes;

pub use finding::way_end;
pub use making::{Place, make_way};
pub use masks::{cells, write_words};
