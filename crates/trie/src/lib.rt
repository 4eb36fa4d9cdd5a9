// The trie: nodes of sixteen cells in a row of numbers, gone down by a key's nibbles. What a row answers and when it is the trie of a map is defined in specs/Nodes.antt and specs/Shape.antt.
#![tactic(auto)]

pub mod laws;
mod lookup;

pub use lookup::Trie;
