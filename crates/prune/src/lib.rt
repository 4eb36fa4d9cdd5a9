// Nodes given back: when a route has been removed, the nodes on the way to its prefix that have become empty are cut off, and last nodes are moved into the holes. Safe on every row; what a row is in between is defined in specs/Free.antt.
#![tactic(auto)]

ghost use Rattle.std.specs.Prelude.{◌≡◌, ◌≤◌, Some, None};
ghost use Rattle.prefix.specs.Words.{width};
ghost use Rattle.prefix.specs.Map.{Hops};
ghost use Rattle.trie.specs.Shape.{TrieOf};
ghost use Rattle.prune.specs.Free.{WithWay, Needed};

use prefix::{Key, Prefix};

mod freed;
mod hints;
pub mod laws;
mod moves;
mod ways;

pub use freed::Free;
pub use moves::close_up;
pub use ways::cut_off;

// Gives back the nodes on the way to a prefix that have become empty, and answers how many nodes there are then; None where a hint fails or the row is not right, and the row is then to be made anew. Whoever has readers that go by the count calls `cut_off`, writes the count, and calls `close_up`.
pub fn prune<K: Key>(nodes: &mut [u32], count: u32, hints: usize, prefix: Prefix<K>) -> Option<u32>
    ensures right { elim result [ Some c ↦ ((m : Hops) → WithWay (width K.Key.words) prefix.len (K.Key.num prefix.bits) m nodes.old count → TrieOf (width K.Key.words) m nodes.new c × (c ≤ count)) | None ↦ Unit ] }
    ensures kept { (m : Hops) → WithWay (width K.Key.words) prefix.len (K.Key.num prefix.bits) m nodes.old count → prefix.len ≤ width K.Key.words → Needed (width K.Key.words) prefix.len (K.Key.num prefix.bits) m → (result ≡ Some count) × (nodes.new ≡ nodes.old) }
{
    let Free { mut numbers, left } = cut_off(nodes, count, prefix)?;
    if left == 0 {
        return Some(count);
    }
    close_up(nodes, count, hints, &mut numbers[..left])
}
