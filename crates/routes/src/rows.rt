// How a row holds a route list, read: how many routes, and each of them.
ghost use Rattle.std.specs.Prelude.{◌≡◌, ℕ, ◌+◌, ◌-◌, ◌*◌, ◌^◌, ◌<◌, ◌≤◌, ◌&&◌, length, MatchOption, nat_le, slice_index, slice_index_or};
ghost use Rattle.prefix.specs.Words.{loaded};
ghost use Rattle.prefix.specs.Routes.{route_of, no_route};
ghost use Rattle.routes.specs.Rows.{slot, count_in, room_in, routes};

use prefix::{Key, Prefix};
use std::marker::PhantomData;

// How many routes a row holds, and for how many it has room.
#[derive(Clone, Copy)]
pub struct Extent {
    pub count: usize,
    pub room: usize,
}

impl Extent {
    pub fn of<K: Key>(row: &[u32], stride: usize) -> Extent
        ensures count { result.count ≡ count_in K.Key.words stride row.now }
        ensures room { result.room ≡ room_in K.Key.words stride row.now }
        ensures low { result.room < 2 ^ 32 }
    {
        let none = Extent { count: 0, room: 0 };
        if row.len() < 2 {
            return none;
        }
        let (count, room) = (row[0] as usize, row[1] as usize);
        if count > room || !has_room::<K>(row, stride, room) {
            return none;
        }
        Extent { count, room }
    }
}

// The list that a row holds, to be read. What the row has is tested once, when it is lent.
#[derive(Drop)]
pub struct List<'a, K: Key> {
    pub row: &'a [u32],
    pub stride: usize,
    extent: Extent,
    keys: PhantomData<K>,
    ghost counted: { extent.count ≡ count_in K.Key.words stride row.now },
    ghost roomy: { extent.room ≡ room_in K.Key.words stride row.now },
    ghost low: { extent.room < 2 ^ 32 },
}

impl<'a, K: Key> List<'a, K> {
    pub fn over(row: &'a [u32], stride: usize) -> List<'a, K>
        ensures row { result.row.now ≡ row.now }
        ensures stride { result.stride ≡ stride }
    {
        let extent = Extent::of::<K>(row, stride);
        List {
            row,
            stride,
            extent,
            keys: PhantomData,
        }
    }

    // How many routes there are, and for how many there is room.
    pub(crate) fn extent(&self) -> Extent
        ensures count { result.count ≡ count_in K.Key.words self.now.stride self.now.row.now }
        ensures room { result.room ≡ room_in K.Key.words self.now.stride self.now.row.now }
    {
        self.extent
    }

    // Route k with its hop, or none where there are not so many.
    pub fn route(&self, k: usize) -> Option<(Prefix<K>, u32)>
        ensures { MatchOption result (length (routes K.Key.words self.now.stride self.now.row.now) ≤ k) (λ p. (k < length (routes K.Key.words self.now.stride self.now.row.now)) × (route_of (K.Key.num p.0.bits) p.0.len p.1 ≡ slice_index_or (routes K.Key.words self.now.stride self.now.row.now) k no_route)) }
    {
        if k >= self.extent.count {
            return None;
        }
        Some((self.prefix_at(k), self.hop_at(k)))
    }

    // The prefix of route k, of which the caller knows that it is there.
    pub(crate) fn prefix_at(&self, k: usize) -> Prefix<K>
        requires { k < self.now.extent.count }
        ensures bits { K.Key.num result.bits ≡ loaded K.Key.words self.now.row.now (slot self.now.stride k) }
        ensures len { result.len ≡ slice_index self.now.row.now (slot self.now.stride k + K.Key.words) }
    {
        let at = slot_at::<K>(self.row, self.stride, k);
        let bits = K::load(self.row, at);
        let len = self.row[at + K::words()];
        Prefix { bits, len }
    }

    // Its hop.
    pub(crate) fn hop_at(&self, k: usize) -> u32
        requires { k < self.now.extent.count }
        ensures { result ≡ slice_index self.now.row.now (slot self.now.stride k + (K.Key.words + 1)) }
    {
        let at = slot_at::<K>(self.row, self.stride, k);
        self.row[at + (K::words() + 1)]
    }
}

// Where route k begins, for which the row has room.
pub(crate) fn slot_at<K: Key>(row: &[u32], stride: usize, k: usize) -> usize
    requires { k < room_in K.Key.words stride row.now }
    ensures value { result ≡ slot stride k }
    ensures within { result + stride ≤ length row.now }
    ensures wide { K.Key.words + 2 ≤ stride }
{
    2 + stride * k
}

// Whether a row is long enough for so many routes. The product is tested by its quotient, since it may pass what a number holds.
fn has_room<K: Key>(row: &[u32], stride: usize, room: usize) -> bool
    ensures { result ≡ (nat_le (K.Key.words + 2) stride && nat_le (slot stride room) (length row.now)) }
{
    stride >= K::words() + 2 && row.len() >= 2 && room <= (row.len() - 2) / stride
}
