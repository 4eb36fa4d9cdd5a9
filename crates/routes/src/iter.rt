// The routes of a list one after the other, for whoever goes through all of them.
ghost use Rattle.std.specs.Prelude.{◌≡◌, drop};
ghost use Rattle.std.specs.Iterator.{YieldsFirstBy, item_count};
ghost use Rattle.prefix.specs.Routes.{route_of};
ghost use Rattle.routes.specs.Rows.{routes};

use crate::rows::List;
use prefix::{Key, Prefix};

// A list gone through from its first route on.
#[derive(Drop)]
pub struct Routes<'a, K: Key> {
    list: List<'a, K>,
    next: usize,
}

impl<'a, K: Key> List<'a, K> {
    // The routes in their order, each with its hop.
    pub fn iter(&self) -> Routes<'a, K>
        ensures { drop result.next (routes K.Key.words result.list.stride result.list.row.now) ≡ routes K.Key.words self.now.stride self.now.row.now }
    {
        Routes {
            list: List::over(self.row, self.stride),
            next: 0,
        }
    }
}

impl<'a, K: Key> Iterator for Routes<'a, K> {
    type Item = (Prefix<K>, u32);

    ghost next_gives = { YieldsFirstBy (λ p. route_of (K.Key.num p.0.bits) p.0.len p.1) (λ s. drop s.next (routes K.Key.words s.list.stride s.list.row.now)) };

    ghost remaining = { item_count (λ s. drop s.next (routes K.Key.words s.list.stride s.list.row.now)) };

    fn next(&mut self) -> Option<(Prefix<K>, u32)> {
        let route = self.list.route(self.next)?;
        self.next += 1;
        Some(route)
    }
}
