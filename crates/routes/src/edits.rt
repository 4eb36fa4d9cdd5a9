// Changes of the list in place: what stands behind the change is lent on and shifted, in one piece. They take the row and its stride, and no struct: one that held the `&mut` would owe a clause more in each function, that it is still the same row, for two calls.
ghost use Rattle.std.specs.Prelude.{◌≡◌, ℕ, ◌+◌, ◌-◌, ◌<◌, ◌≤◌, length, slice_index, slice_set};
ghost use Rattle.prefix.specs.Routes.{route_of};
ghost use Rattle.routes.specs.Rows.{slot, count_in, room_in, routes};
ghost use Rattle.routes.specs.Gaps.{Opened, Closed, Written};
ghost use Rattle.routes.specs.Changes.{Added, Removed, InsertSays, InsertKeeps, RemoveSays, RemoveKeeps};

use crate::rows::{Extent, List, slot_at};
use prefix::{Key, Prefix};

// The list has no room for one more route.
#[derive(Clone, Copy)]
pub struct Full;

// Puts a route in its place, or in the place of the one with its prefix, whose hop is answered.
pub fn insert<K: Key>(
    row: &mut [u32],
    stride: usize,
    prefix: Prefix<K>,
    hop: u32,
) -> Result<Option<u32>, Full>
    ensures says { InsertSays K.Key.words stride row.old row.new (route_of (K.Key.num prefix.bits) prefix.len hop) result }
    ensures keeps { InsertKeeps (routes K.Key.words stride row.old) (routes K.Key.words stride row.new) (route_of (K.Key.num prefix.bits) prefix.len hop) result }
{
    let list = List::over(row, stride);
    let Extent { count, room } = list.extent();
    match list.find(prefix) {
        Ok(k) => Ok(Some(replace_at::<K>(row, stride, k, hop))),
        Err(k) => {
            if count == room {
                return Err(Full);
            }
            add_at(row, stride, k, prefix, hop);
            Ok(None)
        }
    }
}

// Takes the route with just this prefix out, and answers its hop.
pub fn remove<K: Key>(row: &mut [u32], stride: usize, prefix: Prefix<K>) -> Option<u32>
    ensures says { RemoveSays K.Key.words stride row.old row.new (K.Key.num prefix.bits) prefix.len result }
    ensures keeps { RemoveKeeps (routes K.Key.words stride row.old) (routes K.Key.words stride row.new) (K.Key.num prefix.bits) prefix.len result }
{
    let k = List::over(row, stride).find(prefix).ok()?;
    Some(take_at::<K>(row, stride, k))
}

// Gives route k another hop, and answers the one that it had.
fn replace_at<K: Key>(row: &mut [u32], stride: usize, k: usize, hop: u32) -> u32
    requires { k < count_in K.Key.words stride row.old }
    ensures was { result ≡ slice_index row.old (slot stride k + (K.Key.words + 1)) }
    ensures after { row.new ≡ slice_set row.old (slot stride k + (K.Key.words + 1)) hop }
{
    let at = slot_at::<K>(row, stride, k) + (K::words() + 1);
    let was = row[at];
    row[at] = hop;
    was
}

// Adds a route as route k.
fn add_at<K: Key>(row: &mut [u32], stride: usize, k: usize, prefix: Prefix<K>, hop: u32)
    requires place { k ≤ count_in K.Key.words stride row.old }
    requires room { count_in K.Key.words stride row.old < room_in K.Key.words stride row.old }
    ensures { Added K.Key.words stride row.old row.new (route_of (K.Key.num prefix.bits) prefix.len hop) k }
{
    let count = row[0];
    let at = slot_at::<K>(row, stride, k);
    let end = slot_at::<K>(row, stride, count as usize) + stride;
    open_gap(&mut row[at..end], stride);
    write_at(row, at, prefix, hop);
    row[0] = count + 1;
}

// Takes route k out, and answers its hop.
fn take_at<K: Key>(row: &mut [u32], stride: usize, k: usize) -> u32
    requires { k < count_in K.Key.words stride row.old }
    ensures was { result ≡ slice_index row.old (slot stride k + (K.Key.words + 1)) }
    ensures after { Removed K.Key.words stride row.old row.new k }
{
    let count = row[0];
    let at = slot_at::<K>(row, stride, k);
    let was = row[at + (K::words() + 1)];
    let end = slot_at::<K>(row, stride, count as usize - 1) + stride;
    close_gap(&mut row[at..end], stride);
    row[0] = count - 1;
    was
}

// Writes a route from a place on: its bits, its length, its hop.
fn write_at<K: Key>(row: &mut [u32], at: usize, prefix: Prefix<K>, hop: u32)
    requires { at + (K.Key.words + 2) ≤ length row.old }
    ensures { Written K.Key.words at row.old row.new (K.Key.num prefix.bits) prefix.len hop }
{
    prefix.bits.store(row, at);
    row[at + K::words()] = prefix.len;
    row[at + (K::words() + 1)] = hop;
}

// Moves all but the last numbers of a part up by the gap; the first stay in it.
fn open_gap(part: &mut [u32], gap: usize)
    requires { gap ≤ length part.old }
    ensures { Opened gap 0 (length part.old - gap) part.old part.new }
{
    let kept = part.len() - gap;
    part.copy_within(0..kept, gap);
}

// Moves all but the first numbers of a part down by the gap; the last stay behind.
fn close_gap(part: &mut [u32], gap: usize)
    requires { gap ≤ length part.old }
    ensures { Closed gap 0 (length part.old) part.old part.new }
{
    let end = part.len();
    part.copy_within(gap..end, 0);
}
