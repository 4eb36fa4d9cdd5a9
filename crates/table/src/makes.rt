// Tables made: an empty one.
ghost use Rattle.std.specs.Prelude.{◌≡◌, ℕ, ◌+◌, ◌*◌, ◌^◌, ◌<◌, ◌≤◌, MatchOption};
ghost use Rattle.table.specs.Right.{default_at, most_nodes, row_length};
ghost use Rattle.table.specs.Answers.{MakeSays};

use prefix::Key;

// The row's length is not that of a table with so much room, or the room is more than node numbers go round for.
#[derive(Clone, Copy)]
pub struct Misfit;

// Makes a row an empty table with so much room.
pub fn make_empty(table: &mut [u32], room: u32) -> Result<(), Misfit>
    ensures { MakeSays 1 table.old table.new room result }
{
    make::<u32>(table, room)
}

// How many numbers the row of a table with so much room has, or none where there would be too many nodes.
pub fn row_length(room: u32) -> Option<usize>
    ensures { MatchOption result (2 ^ 32 ≤ most_nodes 1 room) (λ n. (n ≡ row_length 1 room) × (most_nodes 1 room < 2 ^ 32)) }
{
    let Sizes { at, most } = Sizes::of::<u32>(room);
    if most > u32::MAX as usize {
        return None;
    }
    Some(at + 2 + 32 * most)
}

// The same for any keys.
pub(crate) fn make<K: Key>(table: &mut [u32], room: u32) -> Result<(), Misfit>
    ensures { MakeSays K.Key.words table.old table.new room result }
{
    let Sizes { at, most } = Sizes::of::<K>(room);
    if most > u32::MAX as usize || table.len() != at + 2 + 32 * most {
        return Err(Misfit);
    }
    table[0] = 0;
    table[1] = room;
    table[at] = 0;
    table[at + 1] = 1;
    table[at + 2..at + 34].fill(0);
    Ok(())
}

// Where the default of a table with so much room stands, and for how many nodes it has space.
#[derive(Clone, Copy)]
struct Sizes {
    at: usize,
    most: usize,
}

impl Sizes {
    fn of<K: Key>(room: u32) -> Sizes
        ensures at { result.at ≡ default_at K.Key.words room }
        ensures most { result.most ≡ most_nodes K.Key.words room }
        ensures low { (result.at < 2 ^ 40) × (result.most < 2 ^ 40) }
    {
        let words = K::words();
        let at = 2 + (words + 2) * room as usize;
        let most = 8 * words * room as usize + 1;
        Sizes { at, most }
    }
}
