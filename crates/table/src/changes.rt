// Changes of a table: first the list, then the default and the trie after it.
ghost use Rattle.std.specs.Prelude.{◌≡◌, true, is_some};
ghost use Rattle.prefix.specs.Words.{width};
ghost use Rattle.prefix.specs.Routes.{route_of, good_route};
ghost use Rattle.table.specs.Right.{Right};
ghost use Rattle.table.specs.Changes.{PutSays, AwaySays};
ghost use Rattle.table.specs.Follows.{Front, Left};

use crate::anew::rebuild;
use crate::follows::{enter, leave};
use prefix::{Key, Prefix};
use routes::Full;

// Puts a route, in the place of the one with its prefix or as a new one.
pub(crate) fn put<K: Key>(table: &mut [u32], prefix: Prefix<K>, hop: u32) -> Result<(), Full>
    ensures { Right K.Key.words table.old → good_route (width K.Key.words) (route_of (K.Key.num prefix.bits) prefix.len hop) ≡ true → PutSays K.Key.words table.old table.new (route_of (K.Key.num prefix.bits) prefix.len hop) result }
{
    routes::insert(table, K::words() + 2, prefix, hop)?;
    enter(table, prefix);
    Ok(())
}

// Takes a route away; None where there is none. Where the trie cannot follow in place, since a hint failed, it is made anew from the list.
pub(crate) fn away<K: Key>(table: &mut [u32], prefix: Prefix<K>) -> Option<()>
    ensures { Right K.Key.words table.old → AwaySays K.Key.words table.old table.new prefix.len (K.Key.num prefix.bits) (is_some result) }
{
    routes::remove(table, K::words() + 2, prefix)?;
    follow(table, prefix);
    Some(())
}

// The trie follows a route that has gone, in place or made anew.
fn follow<K: Key>(table: &mut [u32], prefix: Prefix<K>)
    ensures front { Front K.Key.words table.old table.new }
    ensures right { Left K.Key.words table.old table.new prefix.len (K.Key.num prefix.bits) true }
{
    if leave(table, prefix).is_none() {
        rebuild::<K>(table);
    }
}
