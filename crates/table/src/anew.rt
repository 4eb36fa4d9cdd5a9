// The default and the trie made anew from the list: for whoever has a row whose trie is damaged or not known, and a list that is good.
ghost use Rattle.std.specs.Prelude.{◌≡◌, ℕ, ◌+◌, ◌<◌, ◌≤◌, true, List, length, is_some, slice_index};
ghost use Rattle.table.specs.Right.{room, default_at, Right, Sound};
ghost use Rattle.table.specs.Follows.{Front};
ghost use Rattle.table.specs.Anew.{Alike, Begun};

use crate::follows::enter_last;
use crate::parts::{default_place, list};
use prefix::Key;

// Makes the default and the trie anew from the list, whatever they hold. None where the row has not the parts of a table.
pub(crate) fn rebuild<K: Key>(table: &mut [u32]) -> Option<()>
    ensures front { Front K.Key.words table.old table.new }
    ensures right { Sound K.Key.words table.old → (is_some result ≡ true) × Right K.Key.words table.new }
{
    let at = default_place::<K>(table)?;
    if at + 34 > table.len() {
        return None;
    }
    let count = table[0];
    blank::<K>(table, at);
    let done = enter_all::<K>(table, count);
    table[0] = count;
    done
}

// Makes it a table of no routes; those of the list stay where they are.
fn blank<K: Key>(table: &mut [u32], at: usize)
    requires place { at ≡ default_at K.Key.words (room table.old) }
    requires inside { at + 34 ≤ length table.old }
    ensures alike { Alike K.Key.words table.old table.new }
    ensures right { Sound K.Key.words table.old → Begun K.Key.words table.old table.new 0 }
{
    table[0] = 0;
    table[at] = 0;
    table[at + 1] = 1;
    table[at + 2..at + 34].fill(0);
}

// Enters the routes that stand in the list's part, one after the other: after each the table is right for those so far.
fn enter_all<K: Key>(table: &mut [u32], count: u32) -> Option<()>
    requires { 0 < length table.old }
    ensures alike { Alike K.Key.words table.old table.new }
    ensures right { (whole : List ℕ) → Sound K.Key.words whole → count ≡ slice_index whole 0 → Begun K.Key.words whole table.old 0 → (is_some result ≡ true) × Begun K.Key.words whole table.new count }
{
    // By number: each turn writes how many routes there are so far.
    for k in 0..count {
        enter_next::<K>(table, k)?;
    }
    Some(())
}

// One more route: it is counted, and entered.
fn enter_next<K: Key>(table: &mut [u32], k: u32) -> Option<()>
    requires some { 0 < length table.old }
    requires low { k + 1 < 4294967296 }
    ensures alike { Alike K.Key.words table.old table.new }
    ensures right { (whole : List ℕ) → Sound K.Key.words whole → k < slice_index whole 0 → Begun K.Key.words whole table.old k → (is_some result ≡ true) × Begun K.Key.words whole table.new (k + 1) }
{
    table[0] = k + 1;
    let (prefix, hop) = list::<K>(table).route(k as usize)?;
    enter_last(table, prefix, hop)
}
