// The trie beside the plain scan of the list.
ghost use Rattle.std.specs.Prelude.{◌≡◌, true};
ghost use Rattle.prefix.specs.Map.{told as word_told};
ghost use Rattle.table.specs.Answers.{told};
ghost use Rattle.table.specs.Right.{Right};
ghost use Rattle.trials.specs.Compare.{agree, compared, Tried};

use crate::counts::Counts;
use crate::ends::near_ends;
use routes::List;
use table::{Change, Done};

// Tries a change, and compares at both ends of its prefix and next to them. In a right table no difference is found.
pub fn try_change(row: &mut [u32], change: Change, counts: &mut Counts)
    ensures { Tried row.old row.new change counts.old counts.new }
{
    counts.note_change(table::apply(row, change));
    compare_at(row, &near_ends(change), counts);
}

// Whether `table::look`, by which the programs answer, and the scan of the list say the same of an address. In a right table they do.
pub fn agree(row: &[u32], address: u32) -> bool
    ensures value { result ≡ agree row.now address }
    ensures right { Right 1 row.now → result ≡ true }
{
    table::look(row, address) == answered(List::over(row, 3).scan(address))
}

// What an entry answers of a hop or none.
fn answered(hop: Option<u32>) -> Done
    ensures { result ≡ told (word_told hop) }
{
    match hop {
        Some(hop) => Done::To(hop as u64),
        None => Done::Nowhere,
    }
}

// Compares at each of these addresses.
fn compare_at(row: &[u32], addresses: &[u32], counts: &mut Counts)
    ensures counts { counts.new ≡ compared row.now addresses.now counts.old }
    ensures right { Right 1 row.now → counts.new.differences ≡ counts.old.differences }
{
    for address in addresses {
        counts.note(agree(row, *address));
    }
}
