// A table filled, stirred and emptied; after each change the trie is compared with the plain scan of the list, what lies beneath the prefix with the routes that do, and the count of nodes with that of a table made anew.
use crate::draws;
use prefix::Prefix;
use routes::{Extent, List};
use std::alloc::Global;
use table::Change;
use trials::{Chance, Counts, empty_table};

// How many changes stir a full table.
const STIRS: u32 = 1000;

// How many addresses by chance are compared after each change.
const ADDRESSES: u32 = 8;

// A table that is tried, another row in which its trie is made anew, and what was counted.
#[derive(Drop)]
pub(crate) struct Trial {
    row: Vec<u32>,
    anew: Vec<u32>,
    pub counts: Counts,
}

impl Trial {
    // An empty table with so much room, or none where there is no memory for it.
    pub(crate) fn begin(heap: Global, room: u32) -> Option<Trial> {
        let row = empty_table(heap, room)?;
        let anew = empty_table(heap, room)?;
        let counts = Counts::nothing();
        Some(Trial { row, anew, counts })
    }

    // Puts routes until the table is full. A route of which the prefix is there already is replaced, so there may be more puts than room.
    pub(crate) fn fill(&mut self, chance: &mut Chance, room: u32) {
        for _ in 0..room.saturating_mul(8).saturating_add(100) {
            let Extent { count, room } = Extent::of::<u32>(&self.row, 3);
            if count == room {
                break;
            }
            let change = draws::any_put(&self.row, chance);
            self.change_and_compare(chance, change);
        }
    }

    // Puts and takes away in a table that is full, or nearly.
    pub(crate) fn stir(&mut self, chance: &mut Chance) {
        for _ in 0..STIRS {
            let change = if chance.next() % 2 == 0 {
                draws::any_put(&self.row, chance)
            } else {
                draws::any_away(&self.row, chance)
            };
            self.change_and_compare(chance, change);
        }
    }

    // Takes routes away until there are none.
    pub(crate) fn drain(&mut self, chance: &mut Chance, room: u32) {
        for _ in 0..room {
            let Some(held) = draws::held_route(&self.row, chance) else {
                break;
            };
            let change = Change::Away {
                bits: held.bits,
                len: held.len as u64,
            };
            self.change_and_compare(chance, change);
        }
        let is_empty = Extent::of::<u32>(&self.row, 3).count == 0;
        self.counts.note(is_empty && table::nodes(&self.row) == 1);
    }

    // Carries a change out, and compares at both ends of its prefix, next to them, and at some addresses by chance.
    fn change_and_compare(&mut self, chance: &mut Chance, change: Change) {
        trials::try_change(&mut self.row, change, &mut self.counts);
        for _ in 0..ADDRESSES {
            self.counts.note(trials::agree(&self.row, chance.next()));
        }
        let (bits, len) = trials::prefix_of(change);
        self.compare_beneath(bits, len);
        self.compare_anew();
    }

    // The part that is lent of what lies beneath a prefix has all the routes of the list that do.
    fn compare_beneath(&mut self, bits: u32, len: u64) {
        let Some(prefix) = Prefix::new(bits, len) else {
            return;
        };
        let part = beneath::beneath(&self.row, bits, len);
        let same = part.len() / 3 == count_beneath(&self.row, prefix);
        self.counts.note(same);
    }

    // A table made anew from the same list has as many nodes.
    fn compare_anew(&mut self) {
        let end = 2 + 3 * Extent::of::<u32>(&self.row, 3).count;
        if end > self.row.len() || end > self.anew.len() {
            self.counts.note(false);
            return;
        }
        self.anew[..end].copy_from_slice(&self.row[..end]);
        let made = table::make_anew(&mut self.anew).is_ok();
        self.counts.note(made && table::nodes(&self.anew) == table::nodes(&self.row));
    }
}

// How many routes of a list lie beneath a prefix, each asked.
fn count_beneath(row: &[u32], prefix: Prefix<u32>) -> usize {
    let mut count = 0usize;
    for (held, _) in List::over(row, 3).iter() {
        if prefix.covers(held) {
            count = count.saturating_add(1);
        }
    }
    count
}
