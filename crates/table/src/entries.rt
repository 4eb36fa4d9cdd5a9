// The entries: thin functions on a lent row, for keys of 32 bits.
ghost use Rattle.std.specs.Prelude.{◌≡◌, true, false, is_ok, MatchOption};
ghost use Rattle.prefix.specs.Routes.{answer, route_of, good_prefix};
ghost use Rattle.table.specs.Right.{Right, Sound, listed, nodes};
ghost use Rattle.table.specs.Follows.{Front};
ghost use Rattle.table.specs.Answers.{told, found};
ghost use Rattle.table.specs.Entries.{refusal, PutEntrySays, TakeAwaySays, ApplySays, CarriedOut};

use crate::anew::rebuild;
use crate::changes::{away, put};
use crate::makes::Misfit;
use crate::parts::{default_place, lookup};
use prefix::Prefix;

// Why a route is not put: its bits and its length are no prefix, or there is no such hop. These are refusals 1 and 2.
#[derive(Clone, Copy, PartialEq, Eq)]
pub enum Refusal {
    Prefix = 1,
    Hop = 2,
}

// What an entry answers: one type for all of them, so that a program and a caller in C have one list of answers.
#[derive(Clone, Copy, PartialEq, Eq)]
pub enum Done {
    To(u64),
    Nowhere,
    Ready,
    Full,
    Without,
    Refused(Refusal),
}

// One change of a table.
#[derive(Clone, Copy)]
pub enum Change {
    Put { bits: u32, len: u64, hop: u64 },
    Away { bits: u32, len: u64 },
}

// The largest hop that there is.
const LAST_HOP: u64 = 65_535;

// Where the longest route that matches the address sends it. In a right table the trie answers as the list does; any other row is gone through as it is.
pub fn look(table: &[u32], x: u32) -> Done
    ensures value { result ≡ told (found 1 table.now x) }
    ensures right { Right 1 table.now → result ≡ told (answer 32 (listed 1 table.now) x) }
{
    match lookup(table, x) {
        Some(hop) => Done::To(hop as u64),
        None => Done::Nowhere,
    }
}

// Puts a route. What is no prefix is refusal 1, a hop above 65,535 is refusal 2.
pub fn put_entry(table: &mut [u32], bits: u32, long: u64, to: u64) -> Done
    ensures { PutEntrySays (refusal bits long to) table.old table.new (route_of bits long to) result }
{
    let Some(prefix) = good_prefix(bits, long) else {
        return Done::Refused(Refusal::Prefix);
    };
    if to > LAST_HOP {
        return Done::Refused(Refusal::Hop);
    }
    match put(table, prefix, to as u32) {
        Ok(()) => Done::Ready,
        Err(_) => Done::Full,
    }
}

// Takes a route away. A length above 32 is no route's.
pub fn take_away(table: &mut [u32], bits: u32, long: u64) -> Done
    ensures { TakeAwaySays table.old table.new long bits result }
{
    let Some(prefix) = Prefix::new(bits, long) else {
        return Done::Without;
    };
    match away(table, prefix) {
        Some(()) => Done::Ready,
        None => Done::Without,
    }
}

// Makes the default and the trie anew from the list, whatever they hold. Refused where the row has not the parts of a table.
pub fn make_anew(table: &mut [u32]) -> Result<(), Misfit>
    ensures front { Front 1 table.old table.new }
    ensures right { Sound 1 table.old → (is_ok result ≡ true) × Right 1 table.new }
{
    rebuild::<u32>(table).ok_or(Misfit)
}

// Carries out one change.
pub fn apply(table: &mut [u32], change: Change) -> Done
    ensures { ApplySays table.old table.new change result }
{
    match change {
        Change::Put { bits, len, hop } => put_entry(table, bits, len, hop),
        Change::Away { bits, len } => take_away(table, bits, len),
    }
}

// Carries out changes one after the other. One that is refused, finds no room or has nothing to take away leaves the table as it is.
pub fn carry_out(table: &mut [u32], changes: &[Change])
    ensures { Right 1 table.old → CarriedOut table.old table.new changes.now }
{
    for change in changes {
        apply(table, *change);
    }
}

// How many nodes the trie of a table has. It cannot fail: a row that has not the parts of a table has none.
pub fn nodes(table: &[u32]) -> u32
    ensures { result ≡ nodes 1 table.now }
{
    match default_place::<u32>(table) {
        Some(at) => table[at + 1],
        None => 0,
    }
}

// The prefix that bits and a length are, if they are one: a length that a key has, and then zeros behind it.
fn good_prefix(bits: u32, len: u64) -> Option<Prefix<u32>>
    ensures { MatchOption result (good_prefix 32 len bits ≡ false) (λ p. (good_prefix 32 len bits ≡ true) × (p.bits ≡ bits) × (p.len ≡ len)) }
{
    let prefix = Prefix::new(bits, len)?;
    if !prefix.is_good() {
        return None;
    }
    Some(prefix)
}
