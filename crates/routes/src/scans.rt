// The plain scan: what a list answers, by going through all of it. Slow and plain, it is what every faster answer is compared with.
ghost use Rattle.std.specs.Prelude.{◌≡◌, ℕ, suc, ◌&&◌, if◌then◌else◌, nat_lt};
ghost use Rattle.prefix.specs.Words.{width};
ghost use Rattle.prefix.specs.Routes.{route_of, matches, answer};
ghost use Rattle.routes.specs.Rows.{routes};
ghost use Rattle.prefix.specs.Map.{told};
ghost use Rattle.routes.specs.Bests.{long_of, hop_of};

use crate::rows::List;
use prefix::{Key, Prefix};

// The longest match so far.
#[derive(Clone, Copy)]
pub(crate) struct Match {
    len: u32,
    hop: u32,
}

impl<'a, K: Key> List<'a, K> {
    // The hop of the longest route that matches the key, or none where no route does.
    pub fn scan(&self, key: K) -> Option<u32>
        ensures { told result ≡ answer (width K.Key.words) (routes K.Key.words self.now.stride self.now.row.now) (K.Key.num key) }
    {
        let mut best = None;
        for (prefix, hop) in self.iter() {
            best = longer(best, prefix, hop, key);
        }
        Some(best?.hop)
    }
}

// The route, where it matches and is longer than the best so far.
fn longer<K: Key>(best: Option<Match>, prefix: Prefix<K>, hop: u32, key: K) -> Option<Match>
    ensures long { long_of result ≡ (if matches (width K.Key.words) (route_of (K.Key.num prefix.bits) prefix.len hop) (K.Key.num key) && nat_lt (long_of best) (suc prefix.len) then suc prefix.len else long_of best) }
    ensures hop { hop_of result ≡ (if matches (width K.Key.words) (route_of (K.Key.num prefix.bits) prefix.len hop) (K.Key.num key) && nat_lt (long_of best) (suc prefix.len) then suc hop else hop_of best) }
{
    let is_longer = match best {
        Some(found) => found.len < prefix.len,
        None => true,
    };
    if is_longer && prefix.matches(key) {
        let len = prefix.len;
        return Some(Match { len, hop });
    }
    best
}
