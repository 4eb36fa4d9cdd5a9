// Where a prefix stands in a list, by halving.
ghost use Rattle.std.specs.Prelude.{◌≡◌};
ghost use Rattle.prefix.specs.Routes.{InOrder, held, route_of, before};
ghost use Rattle.routes.specs.Rows.{routes};
ghost use Rattle.prefix.specs.Map.{told};
ghost use Rattle.routes.specs.Searches.{Boundary, Parts, SearchSays, GetSays};

use crate::rows::List;
use prefix::{Key, Prefix};

impl<'a, K: Key> List<'a, K> {
    // The first place whose route does not come before the prefix.
    pub fn lower_bound(&self, prefix: Prefix<K>) -> usize
        ensures { Boundary (routes K.Key.words self.now.stride self.now.row.now) (K.Key.num prefix.bits) prefix.len result }
    {
        self.partition_point(
            0,
            |other: Prefix<K>|
                ensures { result ≡ before (route_of (K.Key.num other.bits) other.len 0) (route_of (K.Key.num prefix.bits) prefix.len 0) }
            { other.is_before(prefix) },
        )
    }

    // A place, from one on, before which the test holds of the route and at which it does not: the first such place, where the routes of which it holds come first.
    pub fn partition_point<F: Fn(Prefix<K>) -> bool>(&self, from: usize, is_left: F) -> usize
        requires { F.IsAlwaysCallable is_left }
        ensures { Parts (routes K.Key.words self.now.stride self.now.row.now) from result (λ r told. (p : _) × (route_of (K.Key.num p.bits) p.len r.hop ≡ r) × F.post is_left p told) }
    {
        // Halved by hand: the library halves slices, and a row is no slice of routes.
        let mut low = from;
        let mut high = self.extent().count;
        while low < high {
            let middle = low + (high - low) / 2;
            if is_left(self.prefix_at(middle)) {
                low = middle + 1;
            } else {
                high = middle;
            }
        }
        low
    }

    // The place of the route with just this prefix, or else the place where it would stand.
    pub fn find(&self, prefix: Prefix<K>) -> Result<usize, usize>
        ensures { SearchSays (routes K.Key.words self.now.stride self.now.row.now) (K.Key.num prefix.bits) prefix.len result }
    {
        let k = self.lower_bound(prefix);
        if k < self.extent().count && self.prefix_at(k).is_same(prefix) {
            return Ok(k);
        }
        Err(k)
    }

    // The hop of the route with just this prefix.
    pub fn get(&self, prefix: Prefix<K>) -> Option<u32>
        ensures says { GetSays (routes K.Key.words self.now.stride self.now.row.now) (K.Key.num prefix.bits) prefix.len result }
        ensures held { InOrder (routes K.Key.words self.now.stride self.now.row.now) → told result ≡ held prefix.len (K.Key.num prefix.bits) (routes K.Key.words self.now.stride self.now.row.now) }
    {
        let k = self.find(prefix).ok()?;
        Some(self.hop_at(k))
    }
}
