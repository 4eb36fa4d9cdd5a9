// Lookup by recursion, safe on every row: on the trie of a list of routes it answers as the list does.
ghost use Rattle.std.specs.Prelude.{◌≡◌, ℕ, ◌+◌, ◌-◌, ◌*◌, ◌/◌, ◌^◌, ◌<◌, true, List};
ghost use Rattle.prefix.specs.Words.{width};
ghost use Rattle.prefix.specs.Routes.{Route, good, answer};
ghost use Rattle.prefix.specs.Map.{Hops, hops, told, or_else, longest};
ghost use Rattle.trie.specs.Nodes.{nibbles, looked};
ghost use Rattle.trie.specs.Shape.{TrieOf};

use prefix::{Key, hop_in};

// A row of nodes, lent to be read.
#[derive(Clone, Copy)]
pub struct Trie<'a> {
    nodes: &'a [u32],
}

impl<'a> Trie<'a> {
    pub fn over(nodes: &'a [u32]) -> Trie<'a>
        ensures { result.nodes.now ≡ nodes.now }
    {
        Trie { nodes }
    }

    // The hop that the cells on the key's way tell last. The prefix of no bits is not in the trie: what it answers is for the caller to add.
    pub fn look<K: Key>(&self, key: K) -> Option<u32>
        ensures value { told result ≡ looked self.now.nodes.now 0 (nibbles (width K.Key.words) (8 * K.Key.words) (K.Key.num key)) 0 }
        ensures right { (m : Hops) (count : ℕ) → TrieOf (width K.Key.words) m self.now.nodes.now count → or_else (told result) (m 0 0) ≡ longest m (width K.Key.words) (K.Key.num key) (width K.Key.words) }
        ensures agrees { (rs : List Route) (count : ℕ) → good (width K.Key.words) rs ≡ true → TrieOf (width K.Key.words) (hops (width K.Key.words) rs) self.now.nodes.now count → or_else (told result) (hops (width K.Key.words) rs 0 0) ≡ answer (width K.Key.words) rs (K.Key.num key) }
        ensures low { told result < 2 ^ 32 }
    {
        hop_in(descend(self, 0, key, 8 * K::words() as u32, 0))
    }
}

// The first number, or the second where that is 0. A hop or none stays the number that cells hold until the lookup ends: an option would be made and taken apart at each step.
fn or_else(a: u32, b: u32) -> u32
    ensures { result ≡ or_else a b }
{
    if a == 0 { b } else { a }
}

// Goes on from a node with what is left of a key, at most so many steps: it takes the struct and not its row, so that it compiles to code without calls.
fn descend<K: Key>(t: &Trie, node: u32, rest: K, steps: u32, found: u32) -> u32
    ensures small { 0 < steps → K.Key.num rest / 2 ^ (width K.Key.words - 4) < 16 }
    ensures value { result ≡ looked t.now.nodes.now node (nibbles (width K.Key.words) steps (K.Key.num rest)) found }
{
    if steps == 0 {
        return found;
    }
    let at = 32 * (node as usize) + 2 * (rest.nibble() as usize);
    if at >= t.nodes.len().saturating_sub(1) {
        return found;
    }
    let best = or_else(t.nodes[at], found);
    let next = t.nodes[at + 1];
    if next == 0 {
        return best;
    }
    descend(t, next, rest.rest(), steps - 1, best)
}
