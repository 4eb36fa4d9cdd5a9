// The ordered route list in a lent row of numbers: how it is gone through, searched and changed. docs/TABLE.md has the row's format.
//
// A row begins with how many routes there are and for how many there is room. Each route takes `stride` numbers: the words of its bits, its length, its hop, and, where the stride is longer than these, numbers of the caller's own, which move with the route. Routes are ordered by bits and then by length, so that a prefix is found by halving, and what lies beneath one stands together.
//
// Every function takes any row. One that is no list's (a stride too short, a room that the row has not, more routes than room) is a list of no routes with no room. In a list that is out of order searches end, and may not find what is there.
#![tactic(auto)]

mod edits;
mod iter;
mod rows;
mod scans;
mod searches;

pub use edits::{Full, insert, remove};
pub use iter::Routes;
pub use rows::{Extent, List};
