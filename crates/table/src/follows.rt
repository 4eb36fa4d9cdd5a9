// The default and the trie follow the list: after a route has come into the list or gone from it, they are made those of the list again, in place. The three functions begin alike, and each ends in steps of its own: a closure for these would have to promise, of any map, what they leave.
ghost use Rattle.std.specs.Prelude.{◌<◌, is_some};
ghost use Rattle.table.specs.Follows.{Front, Entered, Left, Last};

use crate::lends::Parts;
use crate::parts::default_place;
use prefix::{Key, Prefix};

// A prefix has come into the list, or has another hop: its way is made and its words are written, or the default. None where the row is damaged.
pub(crate) fn enter<K: Key>(table: &mut [u32], prefix: Prefix<K>) -> Option<()>
    ensures front { Front K.Key.words table.old table.new }
    ensures right { Entered K.Key.words table.old table.new prefix.len (K.Key.num prefix.bits) (is_some result) }
{
    let at = default_place::<K>(table)?;
    let mut parts = Parts::over(table, at);
    if prefix.len == 0 {
        parts.set_default(prefix);
        return Some(());
    }
    let way = parts.make_way(prefix)?;
    parts.renew_words(&way)
}

// The last route of a list in order has come: the same, without a search.
pub(crate) fn enter_last<K: Key>(table: &mut [u32], prefix: Prefix<K>, hop: u32) -> Option<()>
    ensures front { Front K.Key.words table.old table.new }
    ensures right { Last K.Key.words table.old (K.Key.num prefix.bits) prefix.len hop → Entered K.Key.words table.old table.new prefix.len (K.Key.num prefix.bits) (is_some result) }
{
    let at = default_place::<K>(table)?;
    let mut parts = Parts::over(table, at);
    if prefix.len == 0 {
        parts.set_default(prefix);
        return Some(());
    }
    let way = parts.make_way(prefix)?;
    parts.write_last(&way, hop)
}

// A prefix has gone from the list: its words say what is next longest, and the nodes that have become empty are given back. None where the row is damaged or a hint fails: the trie is then to be made anew.
pub(crate) fn leave<K: Key>(table: &mut [u32], prefix: Prefix<K>) -> Option<()>
    ensures front { Front K.Key.words table.old table.new }
    ensures right { Left K.Key.words table.old table.new prefix.len (K.Key.num prefix.bits) (is_some result) }
{
    let at = default_place::<K>(table)?;
    let mut parts = Parts::over(table, at);
    if prefix.len == 0 {
        parts.set_default(prefix);
        return Some(());
    }
    let way = parts.way_end(prefix)?;
    parts.renew_words(&way)?;
    parts.give_back(prefix)
}
