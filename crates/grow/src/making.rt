// The way to a prefix: from node 0 down by the prefix's nibbles to the last node in which it has bits, where its cells are. Only the nodes that are missing are made.
ghost use Rattle.std.specs.Prelude.{◌≡◌, ℕ, ◌+◌, ◌-◌, ◌*◌, ◌^◌, ◌<◌, ◌≤◌, true, ◌≢◌, List, length, is_some, IfSome, slice_index};
ghost use Rattle.prefix.specs.Words.{width};
ghost use Rattle.prefix.specs.Routes.{Route, first};
ghost use Rattle.prefix.specs.Map.{Hops, hops};
ghost use Rattle.trie.specs.Shape.{local, TrieOf};
ghost use Rattle.trie.specs.Places.{step, Along, Apart, Walk};
ghost use Rattle.grow.specs.Lent.{SameRow};
ghost use Rattle.grow.specs.Ways.{WayMade, Linked, Enough};

use crate::nodes::Nodes;
use prefix::{Key, Prefix};

// How many nodes are in use, and the node at which a way has arrived.
#[derive(Clone, Copy)]
pub struct Place {
    pub count: u32,
    pub node: u32,
}

// Makes the way to the prefix and answers where it ends. None where the row has no room, or the prefix has no bits or more than a key.
pub fn make_way<K: Key>(
    nodes: &mut [u32],
    count: u32,
    hints: usize,
    prefix: Prefix<K>,
) -> Option<Place>
    ensures way { (m : Hops) → TrieOf (width K.Key.words) m nodes.old count → 0 < prefix.len → prefix.len ≤ width K.Key.words → IfSome result (λ p. WayMade (width K.Key.words) m prefix.len (first (width K.Key.words) prefix.len (K.Key.num prefix.bits)) nodes.new p.count p.node) }
    ensures enough { (m : Hops) (rs : List Route) → TrieOf (width K.Key.words) m nodes.old count → 0 < prefix.len → prefix.len ≤ width K.Key.words → Apart m (hops (width K.Key.words) rs) prefix.len (first (width K.Key.words) prefix.len (K.Key.num prefix.bits)) → hops (width K.Key.words) rs prefix.len (first (width K.Key.words) prefix.len (K.Key.num prefix.bits)) ≢ 0 → 32 * ((8 * K.Key.words - 1) * length rs + 1) ≤ length nodes.old → (8 * K.Key.words - 1) * length rs + 1 < 2 ^ 32 → is_some result ≡ true }
    ensures fits { is_some result ≡ true → (0 < prefix.len) × (prefix.len ≤ width K.Key.words) }
{
    if prefix.len == 0 || prefix.len as usize > 32 * K::words() {
        return None;
    }
    let mut nodes = Nodes {
        row: nodes,
        count,
        hints,
    };
    let node = nodes.descend(prefix)?;
    Some(Place {
        count: nodes.count,
        node,
    })
}

impl<'a> Nodes<'a> {
    // Makes the way of a prefix that `make_way` has tested, from the root on, and answers its last node. A loop, so that nothing goes through memory from step to step but the count.
    fn descend<K: Key>(&mut self, prefix: Prefix<K>) -> Option<u32>
        requires some { 0 < prefix.len }
        requires short { prefix.len ≤ width K.Key.words }
        ensures row { SameRow self.old self.new }
        ensures way { (m : Hops) → TrieOf (width K.Key.words) m self.old.row.now self.old.count → IfSome result (λ n. WayMade (width K.Key.words) m prefix.len (first (width K.Key.words) prefix.len (K.Key.num prefix.bits)) self.new.row.now self.new.count n) }
        ensures enough { (m : Hops) (rs : List Route) → TrieOf (width K.Key.words) m self.old.row.now self.old.count → Apart m (hops (width K.Key.words) rs) prefix.len (first (width K.Key.words) prefix.len (K.Key.num prefix.bits)) → hops (width K.Key.words) rs prefix.len (first (width K.Key.words) prefix.len (K.Key.num prefix.bits)) ≢ 0 → Enough K.Key.words rs (length self.old.row.now) → is_some result ≡ true }
    {
        let mut node = 0;
        let mut rest = prefix.bits;
        let mut len = prefix.len;
        let mut nibble = rest.nibble();
        // As in `way_end`, by what is left of the prefix.
        while len > 4 {
            node = self.step_down(node, nibble)?;
            rest = rest.rest();
            nibble = rest.nibble();
            len -= 4;
        }
        Some(node)
    }

    // One step of the way: to the node that the cell names, or to a new one.
    fn step_down(&mut self, node: u32, nibble: u32) -> Option<u32>
        ensures row { SameRow self.old self.new }
        ensures way { (w : ℕ) (m : Hops) (l q d : ℕ) → Walk w (local m) (Along m l q d) l q d self.old.row.now self.old.count node → 4 * (d + 1) < l → l ≤ w → nibble ≡ step l q d → IfSome result (λ n. Walk w (local m) (Along m l q (d + 1)) l q (d + 1) self.new.row.now self.new.count n) }
        ensures enough { 32 * node + (2 * nibble + 1) < length self.old.row.now → (slice_index self.old.row.now (32 * node + (2 * nibble + 1)) ≡ 0 → (32 * (self.old.count + 1) ≤ length self.old.row.now) × (self.old.count + 1 < 2 ^ 32)) → is_some result ≡ true }
    {
        let at = 32 * (node as usize) + (2 * (nibble as usize) + 1);
        if at >= self.row.len() {
            return None;
        }
        let next = self.row[at];
        if next != 0 {
            return Some(next);
        }
        self.link_new(at)
    }

    // A new node, ready before the cell names it, so that no one who reads meanwhile finds a node that is not.
    fn link_new(&mut self, at: usize) -> Option<u32>
        requires { at < length self.old.row.now }
        ensures row { SameRow self.old self.new }
        ensures made { IfSome result (λ n. (self.new.count ≡ self.old.count + 1) × (n ≡ self.old.count) × Linked self.old.row.now self.new.row.now self.old.count at) }
        ensures enough { 32 * (self.old.count + 1) ≤ length self.old.row.now → self.old.count + 1 < 2 ^ 32 → is_some result ≡ true }
    {
        let node = self.count;
        if node == 0xffff_ffff || self.row.len() < 32 * (node as usize + 1) {
            return None;
        }
        self.clear_node(node);
        self.leave_hint(node, at);
        self.row[at] = node;
        self.count += 1;
        Some(node)
    }
}
