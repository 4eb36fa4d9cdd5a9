// A prefix, whether it is one, and what it matches. A key is gone through by its nibbles, from the highest, so that keys of any length go the same way.
ghost use Rattle.std.specs.Prelude.{◌≡◌, ℕ, ◌-◌, ◌*◌, ◌/◌, ◌%◌, ◌^◌, ◌<◌, ◌≤◌, MatchOption, ◌&&◌, ◌==◌};
ghost use Rattle.prefix.specs.Words.{width};
ghost use Rattle.prefix.specs.Routes.{route_of, first, matches, good_prefix, same_prefix, before, beneath};

use crate::keys::Key;

// The first `len` bits of `bits`.
#[derive(Clone, Copy, PartialEq, Eq, PartialOrd, Ord)]
pub struct Prefix<K> {
    pub bits: K,
    pub len: u32,
}

impl<K: Key> Prefix<K> {
    // The prefix of so many bits, or none where a key has not so many.
    pub fn new(bits: K, len: u64) -> Option<Prefix<K>>
        ensures { MatchOption result (width K.Key.words < len) (λ p. (p.bits ≡ bits) × (p.len ≡ len) × (len ≤ width K.Key.words)) }
    {
        if len > width::<K>() as u64 {
            return None;
        }
        Some(Prefix {
            bits,
            len: len as u32,
        })
    }

    // Whether the length fits the key, and all bits behind it are 0.
    pub fn is_good(self) -> bool
        ensures { result ≡ good_prefix (width K.Key.words) self.len (K.Key.num self.bits) }
    {
        self.len <= width::<K>() && zero_behind(self.bits, self.len)
    }

    // Whether the key begins as the prefix says. Bits behind the length are not looked at.
    pub fn matches(self, key: K) -> bool
        ensures { (hop : ℕ) → result ≡ matches (width K.Key.words) (route_of (K.Key.num self.bits) self.len hop) (K.Key.num key) }
    {
        let most = width::<K>();
        let len = if self.len < most { self.len } else { most };
        begins(key, self.bits, len)
    }

    // Whether the other prefix lies beneath this one: as long or longer, and begun by it.
    pub fn covers(self, other: Prefix<K>) -> bool
        ensures { (hop : ℕ) → result ≡ beneath (width K.Key.words) self.len (K.Key.num self.bits) (route_of (K.Key.num other.bits) other.len hop) }
    {
        self.len <= other.len && self.matches(other.bits)
    }

    // Whether the two are one prefix, by the key's own methods: a key need not have `==` and `<`, and without them the derived ones are not there.
    pub fn is_same(self, other: Prefix<K>) -> bool
        ensures { (hop hop' : ℕ) → result ≡ same_prefix (route_of (K.Key.num self.bits) self.len hop) (route_of (K.Key.num other.bits) other.len hop') }
    {
        self.len == other.len && self.bits.is_same(other.bits)
    }

    // The order of a route list: by bits, and by length where these are the same.
    pub fn is_before(self, other: Prefix<K>) -> bool
        ensures { (hop hop' : ℕ) → result ≡ before (route_of (K.Key.num self.bits) self.len hop) (route_of (K.Key.num other.bits) other.len hop') }
    {
        self.bits.is_below(other.bits) || self.bits.is_same(other.bits) && self.len < other.len
    }
}

fn width<K: Key>() -> u32
    ensures { result ≡ width K.Key.words }
{
    32 * K::words() as u32
}

// How much of a nibble lies behind its first `len` bits: 2, 4, 8 or 16 nibbles begin so.
fn behind(len: u32) -> u32
    requires { len < 4 }
    ensures { result ≡ 2 ^ (4 - len) }
{
    match len {
        0 => 16,
        1 => 8,
        2 => 4,
        _ => 2,
    }
}

// Whether two keys have the first `len` bits in common. The caller has cut the length to a key's.
fn begins<K: Key>(key: K, bits: K, len: u32) -> bool
    requires { len ≤ width K.Key.words }
    ensures { result ≡ (first (width K.Key.words) len (K.Key.num key) == first (width K.Key.words) len (K.Key.num bits)) }
{
    let (a, b) = (key.nibble(), bits.nibble());
    if len < 4 {
        let part = behind(len);
        return a / part == b / part;
    }
    if a != b {
        return false;
    }
    begins(key.rest(), bits.rest(), len - 4)
}

// Whether all bits behind the first `len` are 0. The caller has tested the length.
fn zero_behind<K: Key>(bits: K, len: u32) -> bool
    requires { len ≤ width K.Key.words }
    ensures small { K.Key.num bits < 2 ^ width K.Key.words }
    ensures value { result ≡ (K.Key.num bits % 2 ^ (width K.Key.words - len) == 0) }
{
    let high = bits.nibble();
    if len < 4 {
        return high % behind(len) == 0 && bits.rest().is_zero();
    }
    zero_behind(bits.rest(), len - 4)
}
