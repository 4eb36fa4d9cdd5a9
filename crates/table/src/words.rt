// What the cells of a node must say, read from the list: before anything is written to the trie, each word that a change makes new is known.
ghost use Rattle.std.specs.Prelude.{◌≡◌, ℕ, ◌+◌, ◌-◌, ◌*◌, ◌/◌, ◌^◌, ◌<◌, ◌≤◌, true};
ghost use Rattle.prefix.specs.Words.{width};
ghost use Rattle.prefix.specs.Routes.{first, good, InOrder};
ghost use Rattle.prefix.specs.Map.{hops};
ghost use Rattle.trie.specs.Shape.{local};
ghost use Rattle.table.specs.Right.{listed};
ghost use Rattle.grow.specs.Ways.{depth_of};
ghost use Rattle.grow.specs.Cells.{bit, Says};
ghost use Rattle.table.specs.Words.{down};

use crate::lends::Way;
use crate::parts::held;
use prefix::{Key, Prefix};

// The words of the cells that the mask marks, in a way's last node; 0 for the others.
pub(crate) fn words_of<K: Key>(table: &[u32], way: &Way<K>, mask: u16) -> [u32; 16]
    ensures { InOrder (listed K.Key.words table.now) → good (width K.Key.words) (listed K.Key.words table.now) ≡ true → Says (hops (width K.Key.words) (listed K.Key.words table.now)) way.now.prefix.len (first (width K.Key.words) way.now.prefix.len (K.Key.num way.now.prefix.bits)) (depth_of way.now.prefix.len) mask result }
{
    let depth = (way.prefix.len - 1) / 4;
    let path = way.prefix.bits.first(4 * depth);
    let mut words = [0; 16];
    // By number: of what `array::from_fn` or an adapter of `iter_mut` wrote a proof does not learn enough (tried).
    for k in 0..16u32 {
        words[k as usize] = word(table, path, depth, mask, k);
    }
    words
}

// The word of cell k in the node at a path of `depth` nibbles, if the mask marks it.
fn word<K: Key>(table: &[u32], path: K, depth: u32, mask: u16, k: u32) -> u32
    requires below { K.Key.num path < 2 ^ (4 * depth) }
    requires deep { 4 * depth < width K.Key.words }
    requires cell { k < 16 }
    ensures { InOrder (listed K.Key.words table.now) → good (width K.Key.words) (listed K.Key.words table.now) ≡ true → bit mask k ≡ true → result ≡ local (hops (width K.Key.words) (listed K.Key.words table.now)) depth (16 * K.Key.num path + k) }
{
    if mask >> k & 1 == 1 {
        longest_of(table, path.joined(k), 4 * depth + 4, 4)
    } else {
        0
    }
}

// What a cell holds: one more than the hop of the longest route of at most `len` and more than `len - more` bits whose prefix the path begins with; 0 where there is none. The caller's depth is one that a key has.
fn longest_of<K: Key>(table: &[u32], path: K, len: u32, more: u32) -> u32
    requires short { len ≤ width K.Key.words }
    requires below { K.Key.num path < 2 ^ len }
    requires few { more ≤ len }
    ensures { InOrder (listed K.Key.words table.now) → good (width K.Key.words) (listed K.Key.words table.now) ≡ true → result ≡ down (hops (width K.Key.words) (listed K.Key.words table.now)) len (K.Key.num path) more }
{
    if more == 0 {
        return 0;
    }
    let bits = path.placed(len);
    match held(table, Prefix { bits, len }) {
        Some(hop) => hop.wrapping_add(1),
        None => longest_of(table, path.half(), len - 1, more - 1),
    }
}
