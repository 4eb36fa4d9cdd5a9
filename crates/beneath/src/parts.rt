// The part of a row in which the routes beneath a prefix stand, for keys of any words. Both ends are found by halving. The row comes with its stride, and not as a list, since what is lent is a part of the row.
ghost use Rattle.std.specs.Prelude.{◌≡◌, ◌+◌, ◌-◌, ◌*◌, ◌^◌, ◌≤◌, length, take, drop};
ghost use Rattle.prefix.specs.Words.{width};
ghost use Rattle.prefix.specs.Routes.{route_of, first, beneath};
ghost use Rattle.routes.specs.Rows.{slot};
ghost use Rattle.beneath.specs.Parts.{SpanSays, PartTaken, PartSays};

use prefix::{Key, Prefix};
use routes::List;

// Routes of a row that stand together: from one place to before another.
#[derive(Clone, Copy)]
pub struct Span {
    pub from: usize,
    pub to: usize,
}

// The routes beneath a prefix, as they stand in the row. Bits behind the length are not looked at; a length that no key has gives an empty part.
pub fn part<'a, K: Key>(row: &'a [u32], stride: usize, prefix: Prefix<K>) -> &'a [u32]
    ensures says { PartSays K.Key.words stride row.now prefix.len (K.Key.num prefix.bits) result.now }
    ensures taken { PartTaken K.Key.words stride row.now prefix.len (K.Key.num prefix.bits) result.now }
{
    let Span { from, to } = span_of(row, stride, prefix);
    if from == to {
        return &row[..0];
    }
    lend(row, stride, from, to - from)
}

// Which routes of the row these are.
pub fn span_of<K: Key>(row: &[u32], stride: usize, prefix: Prefix<K>) -> Span
    ensures { SpanSays K.Key.words stride row.now prefix.len (K.Key.num prefix.bits) result.from result.to }
{
    if prefix.len as usize > 32 * K::words() {
        return Span { from: 0, to: 0 };
    }
    let list = List::over(row, stride);
    let from = list.lower_bound(start_of(prefix));
    let to = list.partition_point(
        from,
        |held: Prefix<K>|
            ensures { result ≡ beneath (width K.Key.words) prefix.len (K.Key.num prefix.bits) (route_of (K.Key.num held.bits) held.len 0) }
        { prefix.covers(held) },
    );
    Span { from, to }
}

// So many routes of the row, from a place on.
fn lend<'a>(row: &'a [u32], stride: usize, from: usize, count: usize) -> &'a [u32]
    requires { slot stride (from + count) ≤ length row.now }
    ensures { result.now ≡ take (stride * count) (drop (slot stride from) row.now) }
{
    let start = 2 + stride * from;
    let end = start + stride * count;
    &row[start..end]
}

// The prefix with only zeros behind its length, which the caller has tested.
fn start_of<K: Key>(prefix: Prefix<K>) -> Prefix<K>
    requires { prefix.len ≤ width K.Key.words }
    ensures bits { K.Key.num result.bits ≡ first (width K.Key.words) prefix.len (K.Key.num prefix.bits) * 2 ^ (width K.Key.words - prefix.len) }
    ensures len { result.len ≡ prefix.len }
{
    let bits = prefix.bits.first(prefix.len).placed(prefix.len);
    Prefix {
        bits,
        len: prefix.len,
    }
}
