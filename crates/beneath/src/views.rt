// The routes beneath a prefix of 32 bits, from a table's row or from a view of it: three numbers each, bits, length and hop.
ghost use Rattle.std.specs.Prelude.{◌≡◌};
ghost use Rattle.beneath.specs.Parts.{SpanSays, PartTaken, PartSays};

use crate::parts::{Span, part, span_of};
use prefix::Prefix;

// What a route takes of the row.
const STRIDE: usize = 3;

// The routes beneath a prefix. Bits behind the length are not looked at; beneath a length above 32 there is nothing.
pub fn beneath<'a>(table: &'a [u32], bits: u32, long: u64) -> &'a [u32]
    ensures says { PartSays 1 3 table.now long bits result.now }
    ensures taken { PartTaken 1 3 table.now long bits result.now }
{
    match Prefix::new(bits, long) {
        Some(prefix) => part(table, STRIDE, prefix),
        None => &table[..0],
    }
}

// Which routes of the table these are.
pub fn beneath_span(table: &[u32], bits: u32, long: u64) -> Span
    ensures { SpanSays 1 3 table.now long bits result.from result.to }
{
    match Prefix::new(bits, long) {
        Some(prefix) => span_of(table, STRIDE, prefix),
        None => Span { from: 0, to: 0 },
    }
}

// A table's row to be read: what it lends lives as long as the row, not only as long as the view.
#[derive(Clone, Copy)]
pub struct View<'a> {
    row: &'a [u32],
}

impl<'a> View<'a> {
    pub fn over(row: &'a [u32]) -> View<'a>
        ensures { result.row.now ≡ row.now }
    {
        View { row }
    }

    // The routes beneath a prefix.
    pub fn beneath(&self, bits: u32, long: u64) -> &'a [u32]
        ensures says { PartSays 1 3 self.now.row.now long bits result.now }
        ensures taken { PartTaken 1 3 self.now.row.now long bits result.now }
    {
        beneath(self.row, bits, long)
    }
}
