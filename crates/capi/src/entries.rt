// The functions that C calls. Each is safe on every row; what it does to a table is what the entry beneath it says.
ghost use Rattle.std.specs.Prelude.{◌≡◌, true};
ghost use Rattle.prefix.specs.Routes.{answer, route_of};
ghost use Rattle.table.specs.Right.{Right, Sound, listed, nodes};
ghost use Rattle.table.specs.Follows.{Front};
ghost use Rattle.table.specs.Answers.{found};
ghost use Rattle.table.specs.Entries.{refusal};
ghost use Rattle.capi.specs.Codes.{Puts, Takes, Makes, Long, Lies};

use crate::codes::code_of;
use beneath::Span;
use prefix::word_of;

// Routes that stand together: the place in the row of the first one's first number, and how many they are.
#[repr(C)]
#[derive(Clone, Copy)]
pub struct JeghrumoPart {
    pub place: usize,
    pub count: usize,
}

// 0 where no route matches the address, or one more than the hop of the longest that does.
#[unsafe(no_mangle)]
pub extern "C" fn jeghrumo_look(row: &[u32], address: u32) -> u32
    ensures value { result ≡ found 1 row.now address }
    ensures right { Right 1 row.now → result ≡ answer 32 (listed 1 row.now) address }
{
    word_of(table::lookup(row, address))
}

// Puts a route, or replaces the one of the same prefix.
#[unsafe(no_mangle)]
pub extern "C" fn jeghrumo_put(row: &mut [u32], bits: u32, len: u64, hop: u64) -> u32
    ensures { Puts row.old row.new bits len hop result }
{
    code_of(table::put_entry(row, bits, len, hop))
}

// Takes a route away.
#[unsafe(no_mangle)]
pub extern "C" fn jeghrumo_take_away(row: &mut [u32], bits: u32, len: u64) -> u32
    ensures { Takes row.old row.new len bits result }
{
    code_of(table::take_away(row, bits, len))
}

// Where the routes beneath a prefix stand.
#[unsafe(no_mangle)]
pub extern "C" fn jeghrumo_beneath(row: &[u32], bits: u32, len: u64) -> JeghrumoPart
    ensures { Lies row.now len bits result.place result.count }
{
    let Span { from, to } = beneath::beneath_span(row, bits, len);
    JeghrumoPart {
        place: 2 + 3 * from,
        count: to - from,
    }
}

// How many numbers the row of a table with so much room has; 0 where there can be none.
#[unsafe(no_mangle)]
pub extern "C" fn jeghrumo_row_length(room: u32) -> usize
    ensures { Long room result }
{
    table::row_length(room).unwrap_or(0)
}

// Makes a row of just that length an empty table with so much room; false, and the row stays, where its length is another.
#[unsafe(no_mangle)]
pub extern "C" fn jeghrumo_make_empty(row: &mut [u32], room: u32) -> bool
    ensures { Makes row.old row.new room result }
{
    table::make_empty(row, room).is_ok()
}

// Makes the trie anew from the list, whatever it holds; false where the row has not the parts of a table.
#[unsafe(no_mangle)]
pub extern "C" fn jeghrumo_make_anew(row: &mut [u32]) -> bool
    ensures front { Front 1 row.old row.new }
    ensures right { Sound 1 row.old → (result ≡ true) × Right 1 row.new }
{
    table::make_anew(row).is_ok()
}

// How many nodes the trie has.
#[unsafe(no_mangle)]
pub extern "C" fn jeghrumo_nodes(row: &[u32]) -> u32
    ensures { result ≡ nodes 1 row.now }
{
    table::nodes(row)
}
