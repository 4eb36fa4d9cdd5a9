// A table held open: it borrows its row for as long as it is kept, and its owner knows afterwards what the row holds.
ghost use Rattle.std.specs.Prelude.{◌≡◌, true, is_ok};
ghost use Rattle.prefix.specs.Routes.{answer, route_of};
ghost use Rattle.routes.specs.Rows.{count_in, room_in};
ghost use Rattle.table.specs.Right.{Right, Sound, stride, listed, nodes};
ghost use Rattle.table.specs.Follows.{Front};
ghost use Rattle.table.specs.Answers.{told, found};
ghost use Rattle.table.specs.Entries.{refusal, PutEntrySays, TakeAwaySays, ApplySays, CarriedOut};

use crate::entries;
use crate::entries::{Change, Done};
use crate::makes::Misfit;
use routes::Extent;

// It has no model: its owner learns what the row holds afterwards by which row it is, and a model would hide that.
#[derive(Drop)]
pub struct Table<'a> {
    row: &'a mut [u32],
}

impl<'a> Table<'a> {
    // The table that a row holds. Of a row that is no right table the methods do no harm and say nothing.
    pub fn over(row: &'a mut [u32]) -> Table<'a>
        ensures same { result.row.now ≡ row.old }
        ensures lent { result.row.ghost_name ≡ row.entry.ghost_name }
    {
        Table { row }
    }

    // Where the longest route that matches the address sends it.
    pub fn look(&self, x: u32) -> Done
        ensures value { result ≡ told (found 1 self.now.row.now x) }
        ensures right { Right 1 self.now.row.now → result ≡ told (answer 32 (listed 1 self.now.row.now) x) }
    {
        entries::look(self.row, x)
    }

    // How many routes there are, and for how many there is room: none in a row that has not a list's parts.
    pub fn extent(&self) -> Extent
        ensures count { result.count ≡ count_in 1 (stride 1) self.now.row.now }
        ensures room { result.room ≡ room_in 1 (stride 1) self.now.row.now }
    {
        Extent::of::<u32>(self.row, 3)
    }

    // How many nodes the trie has.
    pub fn nodes(&self) -> u32
        ensures { result ≡ nodes 1 self.now.row.now }
    {
        entries::nodes(self.row)
    }

    // Puts a route, or replaces the one of the same prefix.
    pub fn put(&mut self, bits: u32, long: u64, to: u64) -> Done
        ensures says { PutEntrySays (refusal bits long to) self.old.row.now self.new.row.now (route_of bits long to) result }
        ensures lent { self.new.row.ghost_name ≡ self.old.row.ghost_name }
    {
        entries::put_entry(self.row, bits, long, to)
    }

    // Takes a route away.
    pub fn take_away(&mut self, bits: u32, long: u64) -> Done
        ensures says { TakeAwaySays self.old.row.now self.new.row.now long bits result }
        ensures lent { self.new.row.ghost_name ≡ self.old.row.ghost_name }
    {
        entries::take_away(self.row, bits, long)
    }

    // Carries out one change.
    pub fn apply(&mut self, change: Change) -> Done
        ensures says { ApplySays self.old.row.now self.new.row.now change result }
        ensures lent { self.new.row.ghost_name ≡ self.old.row.ghost_name }
    {
        entries::apply(self.row, change)
    }

    // Carries out changes one after the other.
    pub fn carry_out(&mut self, changes: &[Change])
        ensures says { Right 1 self.old.row.now → CarriedOut self.old.row.now self.new.row.now changes.now }
        ensures lent { self.new.row.ghost_name ≡ self.old.row.ghost_name }
    {
        entries::carry_out(self.row, changes);
    }

    // Makes the default and the trie anew from the list.
    pub fn make_anew(&mut self) -> Result<(), Misfit>
        ensures front { Front 1 self.old.row.now self.new.row.now }
        ensures right { Sound 1 self.old.row.now → (is_ok result ≡ true) × Right 1 self.new.row.now }
        ensures lent { self.new.row.ghost_name ≡ self.old.row.ghost_name }
    {
        entries::make_anew(self.row)
    }
}
