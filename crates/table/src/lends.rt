// The parts of a table's row lent to be changed: each step of a change of the default or the trie, with the count of nodes written beside it.
ghost use Rattle.std.specs.Prelude.{◌≡◌, ℕ, ◌+◌, ◌-◌, ◌*◌, ◌<◌, ◌≤◌, true, ◌≢◌, length, is_some, IfSome, MatchOption};
ghost use Rattle.prefix.specs.Words.{width};
ghost use Rattle.prefix.specs.Routes.{first, good, held, InOrder};
ghost use Rattle.prefix.specs.Map.{Hops, hops, told};
ghost use Rattle.trie.specs.Places.{Apart};
ghost use Rattle.trie.specs.Shape.{TrieOf};
ghost use Rattle.grow.specs.Ways.{depth_of, WayMade, WayFound};
ghost use Rattle.grow.specs.Cells.{Says};
ghost use Rattle.prune.specs.Free.{WithWay};
ghost use Rattle.table.specs.Right.{room, default_at, listed, default, nodes, trie, Mapped};
ghost use Rattle.table.specs.Follows.{Beside, Last, Renewed, DefaultSet};

use crate::parts::held;
use crate::words::words_of;
use prefix::{Key, Prefix, word_of};
use std::marker::PhantomData;

// A row that has the parts of a table, lent to be changed. Its room stays, so that its default stays where it stands. Each method that writes says by `lent` that it is still the same row, by which its owner learns what the row holds.
#[derive(Drop)]
pub(crate) struct Parts<'a, K: Key> {
    row: &'a mut [u32],
    at: usize,
    keys: PhantomData<K>,
    ghost place: { at ≡ default_at K.Key.words (room row.now) },
    ghost inside: { at + 2 ≤ length row.now },
}

// The last node of the way to a prefix that the trie can have: one of some bits, and not of more than a key.
#[derive(Drop)]
pub(crate) struct Way<K: Key> {
    pub prefix: Prefix<K>,
    pub node: u32,
    pub ghost some: { 0 < prefix.len },
    pub ghost short: { prefix.len ≤ width K.Key.words },
}

impl<'a, K: Key> Parts<'a, K> {
    // The parts of a row whose default stands at a place.
    pub(crate) fn over(row: &'a mut [u32], at: usize) -> Parts<'a, K>
        requires place { at ≡ default_at K.Key.words (room row.old) }
        requires inside { at + 2 ≤ length row.old }
        ensures same { result.row.now ≡ row.old }
        ensures lent { result.row.ghost_name ≡ row.entry.ghost_name }
    {
        Parts {
            row,
            at,
            keys: PhantomData,
        }
    }

    // Writes what the list says of the prefix of no bits.
    pub(crate) fn set_default(&mut self, prefix: Prefix<K>)
        ensures set { DefaultSet K.Key.words self.old.row.now self.new.row.now prefix.len (K.Key.num prefix.bits) }
        ensures lent { self.new.row.ghost_name ≡ self.old.row.ghost_name }
    {
        let word = word_of(self.held(prefix));
        self.row[self.at] = word;
    }

    // The hop that the list has for a prefix.
    fn held(&self, prefix: Prefix<K>) -> Option<u32>
        ensures { InOrder (listed K.Key.words self.now.row.now) → told result ≡ held prefix.len (K.Key.num prefix.bits) (listed K.Key.words self.now.row.now) }
    {
        held(self.row, prefix)
    }

    // The words of the cells that the mask marks, in a way's last node.
    fn words_of(&self, way: &Way<K>, mask: u16) -> [u32; 16]
        ensures { InOrder (listed K.Key.words self.now.row.now) → good (width K.Key.words) (listed K.Key.words self.now.row.now) ≡ true → Says (hops (width K.Key.words) (listed K.Key.words self.now.row.now)) way.now.prefix.len (first (width K.Key.words) way.now.prefix.len (K.Key.num way.now.prefix.bits)) (depth_of way.now.prefix.len) mask result }
    {
        words_of(self.row, way, mask)
    }

    // Makes the way to a prefix, and answers its last node.
    pub(crate) fn make_way(&mut self, prefix: Prefix<K>) -> Option<Way<K>>
        ensures beside { Beside K.Key.words self.old.row.now self.new.row.now }
        ensures way { (m : Hops) → TrieOf (width K.Key.words) m (trie K.Key.words self.old.row.now) (nodes K.Key.words self.old.row.now) → 0 < prefix.len → prefix.len ≤ width K.Key.words → IfSome result (λ way. WayMade (width K.Key.words) m prefix.len (first (width K.Key.words) prefix.len (K.Key.num prefix.bits)) (trie K.Key.words self.new.row.now) (nodes K.Key.words self.new.row.now) way.node) }
        ensures enough { (m : Hops) → Mapped K.Key.words self.old.row.now m → 0 < prefix.len → prefix.len ≤ width K.Key.words → Apart m (hops (width K.Key.words) (listed K.Key.words self.old.row.now)) prefix.len (first (width K.Key.words) prefix.len (K.Key.num prefix.bits)) → hops (width K.Key.words) (listed K.Key.words self.old.row.now) prefix.len (first (width K.Key.words) prefix.len (K.Key.num prefix.bits)) ≢ 0 → is_some result ≡ true }
        ensures its { IfSome result (λ way. way.prefix ≡ prefix) }
        ensures lent { self.new.row.ghost_name ≡ self.old.row.ghost_name }
    {
        let count = self.row[self.at + 1];
        let hints = hints_place::<K>(self.row[1]);
        let place = grow::make_way(&mut self.row[self.at + 2..], count, hints, prefix)?;
        self.row[self.at + 1] = place.count;
        Some(Way {
            prefix,
            node: place.node,
        })
    }

    // The last node of the way to a prefix that is there.
    pub(crate) fn way_end(&self, prefix: Prefix<K>) -> Option<Way<K>>
        ensures end { (m : Hops) → TrieOf (width K.Key.words) m (trie K.Key.words self.now.row.now) (nodes K.Key.words self.now.row.now) → 0 < prefix.len → prefix.len ≤ width K.Key.words → m prefix.len (first (width K.Key.words) prefix.len (K.Key.num prefix.bits)) ≢ 0 → MatchOption result ⊥ (λ way. WayFound (width K.Key.words) m prefix.len (first (width K.Key.words) prefix.len (K.Key.num prefix.bits)) (trie K.Key.words self.now.row.now) (nodes K.Key.words self.now.row.now) way.node) }
        ensures its { IfSome result (λ way. way.prefix ≡ prefix) }
    {
        let node = grow::way_end(&self.row[self.at + 2..], self.row[self.at + 1], prefix)?;
        Some(Way { prefix, node })
    }

    // Makes the words of a prefix's cells new, from the list.
    pub(crate) fn renew_words(&mut self, way: &Way<K>) -> Option<()>
        ensures renewed { Renewed K.Key.words self.old.row.now self.new.row.now way.now.prefix.len (first (width K.Key.words) way.now.prefix.len (K.Key.num way.now.prefix.bits)) way.now.node (is_some result) }
        ensures lent { self.new.row.ghost_name ≡ self.old.row.ghost_name }
    {
        let mask = grow::cells(way.prefix);
        let words = self.words_of(way, mask);
        grow::write_words(&mut self.row[self.at + 2..], way.node, mask, &words)
    }

    // The same for the last route of a list in order, without a search: its word goes into all of its prefix's cells, since a longer route that shares one would come later.
    pub(crate) fn write_last(&mut self, way: &Way<K>, hop: u32) -> Option<()>
        ensures beside { Beside K.Key.words self.old.row.now self.new.row.now }
        ensures renewed { Last K.Key.words self.old.row.now (K.Key.num way.now.prefix.bits) way.now.prefix.len hop → Renewed K.Key.words self.old.row.now self.new.row.now way.now.prefix.len (first (width K.Key.words) way.now.prefix.len (K.Key.num way.now.prefix.bits)) way.now.node (is_some result) }
        ensures lent { self.new.row.ghost_name ≡ self.old.row.ghost_name }
    {
        let mask = grow::cells(way.prefix);
        let word = word_of(Some(hop));
        let words = [word; 16];
        grow::write_words(&mut self.row[self.at + 2..], way.node, mask, &words)
    }

    // Gives the nodes back that have become empty on the way to a prefix.
    pub(crate) fn give_back(&mut self, prefix: Prefix<K>) -> Option<()>
        ensures beside { Beside K.Key.words self.old.row.now self.new.row.now }
        ensures right { (m : Hops) → WithWay (width K.Key.words) prefix.len (K.Key.num prefix.bits) m (trie K.Key.words self.old.row.now) (nodes K.Key.words self.old.row.now) → is_some result ≡ true → TrieOf (width K.Key.words) m (trie K.Key.words self.new.row.now) (nodes K.Key.words self.new.row.now) }
        ensures lent { self.new.row.ghost_name ≡ self.old.row.ghost_name }
    {
        let count = self.row[self.at + 1];
        let hints = hints_place::<K>(self.row[1]);
        let left = prune::prune(&mut self.row[self.at + 2..], count, hints, prefix)?;
        self.row[self.at + 1] = left;
        Some(())
    }
}

// Where the hints stand among the nodes: behind those that a table with so much room can use.
fn hints_place<K: Key>(room: u32) -> usize {
    32 * ((8 * K::words() - 1) * room as usize + 1)
}
