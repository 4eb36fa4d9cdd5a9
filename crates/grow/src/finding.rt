// The way to a prefix that the trie has: its last node is found, and nothing is made.
ghost use Rattle.std.specs.Prelude.{◌≡◌, ◌+◌, ◌*◌, ◌<◌, ◌≤◌, ◌≢◌, length, is_some, true, IfSome, MatchOption, slice_index};
ghost use Rattle.prefix.specs.Words.{width};
ghost use Rattle.prefix.specs.Routes.{first};
ghost use Rattle.prefix.specs.Map.{Hops};
ghost use Rattle.trie.specs.Shape.{TrieOf};
ghost use Rattle.grow.specs.Ways.{WayFound};

use prefix::{Key, Prefix};

// The node in which the prefix has its cells: on every row one of those in use. None where a node of the way is missing, or the prefix has no bits or more than a key.
pub fn way_end<K: Key>(nodes: &[u32], count: u32, prefix: Prefix<K>) -> Option<u32>
    ensures below { IfSome result (λ n. n < count) }
    ensures end { (m : Hops) → TrieOf (width K.Key.words) m nodes.now count → 0 < prefix.len → prefix.len ≤ width K.Key.words → m prefix.len (first (width K.Key.words) prefix.len (K.Key.num prefix.bits)) ≢ 0 → MatchOption result ⊥ (λ n. WayFound (width K.Key.words) m prefix.len (first (width K.Key.words) prefix.len (K.Key.num prefix.bits)) nodes.now count n) }
    ensures fits { is_some result ≡ true → (0 < prefix.len) × (prefix.len ≤ width K.Key.words) }
{
    if count == 0 || prefix.len == 0 || prefix.len as usize > 32 * K::words() {
        return None;
    }
    let mut node = 0;
    let mut rest = prefix.bits;
    let mut len = prefix.len;
    let mut nibble = rest.nibble();
    // What is left of the prefix falls, and is no index: an iterator of nibbles would carry the same two variables.
    while len > 4 {
        node = named(nodes, count, node, nibble)?;
        rest = rest.rest();
        nibble = rest.nibble();
        len -= 4;
    }
    Some(node)
}

// The node that a cell names, if it is one in use.
fn named(nodes: &[u32], count: u32, node: u32, nibble: u32) -> Option<u32>
    ensures { MatchOption result (32 * node + (2 * nibble + 1) < length nodes.now → slice_index nodes.now (32 * node + (2 * nibble + 1)) ≢ 0 → slice_index nodes.now (32 * node + (2 * nibble + 1)) < count → ⊥) (λ n. (n ≡ slice_index nodes.now (32 * node + (2 * nibble + 1))) × (n < count)) }
{
    let at = 32 * (node as usize) + (2 * (nibble as usize) + 1);
    if at >= nodes.len() {
        return None;
    }
    let next = nodes[at];
    if next == 0 || next >= count {
        return None;
    }
    Some(next)
}
