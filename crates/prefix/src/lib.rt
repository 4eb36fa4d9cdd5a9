// Keys, prefixes and matching: the ground on which the route list and the trie stand. What a list of routes answers is defined in specs/Routes.antt, and the laws of these answers are proved in `laws`.
#![tactic(auto)]

mod hops;
mod keys;
pub mod laws;
mod prefixes;

pub use hops::{hop_in, word_of};
pub use keys::Key;
pub use prefixes::Prefix;
