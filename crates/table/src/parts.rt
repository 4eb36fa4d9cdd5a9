// The parts of a table's row, and a lookup over them.
ghost use Rattle.std.specs.Prelude.{◌≡◌, ℕ, ◌+◌, ◌^◌, ◌<◌, ◌≤◌, length, MatchOption, slice_index};
ghost use Rattle.prefix.specs.Words.{width};
ghost use Rattle.prefix.specs.Routes.{answer, held, InOrder};
ghost use Rattle.prefix.specs.Map.{told, or_else};
ghost use Rattle.table.specs.Right.{Right, room, stride, default_at, listed};
ghost use Rattle.table.specs.Answers.{found};

use prefix::{Key, Prefix, hop_in};
use routes::List;
use trie::Trie;

// The hop of the longest route that matches the key, for keys of any words.
pub fn lookup<K: Key>(table: &[u32], key: K) -> Option<u32>
    ensures value { told result ≡ found K.Key.words table.now (K.Key.num key) }
    ensures right { Right K.Key.words table.now → told result ≡ answer (width K.Key.words) (listed K.Key.words table.now) (K.Key.num key) }
    ensures low { told result < 2 ^ 32 }
{
    let at = default_place::<K>(table)?;
    let nodes = &table[at + 2..];
    or_default(Trie::over(nodes).look(key), table, at)
}

// What the trie found, or else the default, which stands at `at`. A `match` and not `or`, which compiles to conditional moves: an answer from the default would then wait for the whole way down.
fn or_default(found: Option<u32>, table: &[u32], at: usize) -> Option<u32>
    requires { at < length table.now }
    ensures value { told result ≡ or_else (told found) (slice_index table.now at) }
    ensures low { told found < 2 ^ 32 → told result < 2 ^ 32 }
{
    match found {
        Some(hop) => Some(hop),
        None => hop_in(table[at]),
    }
}

// Where the default stands, if the row has it and the count of nodes.
pub(crate) fn default_place<K: Key>(table: &[u32]) -> Option<usize>
    ensures { MatchOption result (length table.now < default_at K.Key.words (room table.now) + 2) (λ at. (at ≡ default_at K.Key.words (room table.now)) × (at + 2 ≤ length table.now)) }
{
    if table.len() < 4 {
        return None;
    }
    let at = 2 + (K::words() + 2) * table[1] as usize;
    if at + 2 > table.len() {
        return None;
    }
    Some(at)
}

// The table's list of routes, to be read.
pub(crate) fn list<K: Key>(table: &[u32]) -> List<'_, K>
    ensures row { result.row.now ≡ table.now }
    ensures stride { result.stride ≡ stride K.Key.words }
{
    List::over(table, K::words() + 2)
}

// The hop that the list has for a prefix.
pub(crate) fn held<K: Key>(table: &[u32], prefix: Prefix<K>) -> Option<u32>
    ensures { InOrder (listed K.Key.words table.now) → told result ≡ held prefix.len (K.Key.num prefix.bits) (listed K.Key.words table.now) }
{
    list(table).get(prefix)
}
