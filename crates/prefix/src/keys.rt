// Keys: the numbers that are looked up, addresses of 32 bits now. Everything above is written once over this trait, so that longer addresses are one more `impl`.
ghost use Rattle.std.specs.Prelude.{◌≡◌, ℕ, ◌+◌, ◌-◌, ◌*◌, ◌/◌, ◌%◌, ◌^◌, ◌<◌, ◌≤◌, length, ◌==◌, nat_lt, slice_index};
ghost use Rattle.prefix.specs.Words.{loaded, width};
ghost use Rattle.prefix.specs.Routes.{first};
ghost use Rattle.std.proofs.Common.{rules};

// Order and equality are methods of the trait: `Ord` as a supertrait would ask four traits more of every key type and, with laws that tie it to the number, leave it no other order.
pub trait Key: Copy + Drop {
    // The number that the key is.
    ghost num: { Self → ℕ };

    // How many numbers of a row it takes, each of 32 bits.
    ghost words: { ℕ };

    fn words() -> usize
        ensures { result ≡ words };

    // The key that stands in a row from a place on, its highest word first.
    fn load(row: &[u32], at: usize) -> Self
        requires { at + words ≤ length row.now }
        ensures { num result ≡ loaded words row.now at };

    // Writes the key where `load` reads it, and nothing else.
    fn store(self, row: &mut [u32], at: usize)
        requires { at + words ≤ length row.old }
        ensures value { loaded words row.new at ≡ num self }
        ensures before { (k : ℕ) → k < at → slice_index row.new k ≡ slice_index row.old k }
        ensures behind { (k : ℕ) → at + words ≤ k → slice_index row.new k ≡ slice_index row.old k };

    fn is_below(self, other: Self) -> bool
        ensures { result ≡ nat_lt (num self) (num other) };

    fn is_same(self, other: Self) -> bool
        ensures { result ≡ (num self == num other) };

    // Beside `is_same`, so that no key has to be made of 0.
    fn is_zero(self) -> bool
        ensures { result ≡ (num self == 0) };

    // The highest four bits.
    fn nibble(self) -> u32
        ensures value { result ≡ num self / 2 ^ (width words - 4) }
        ensures below { result < 16 };

    // The bits behind them, moved up by four.
    fn rest(self) -> Self
        ensures { num result ≡ num self % 2 ^ (width words - 4) * 16 };

    // The first `len` bits, as a number.
    fn first(self, len: u32) -> Self
        requires { len ≤ width words }
        ensures value { num result ≡ first (width words) len (num self) }
        ensures below { num result < 2 ^ len };

    // The key that begins with this number of `len` bits, and has only zeros behind.
    fn placed(self, len: u32) -> Self
        requires short { len ≤ width words }
        requires below { num self < 2 ^ len }
        ensures { num result ≡ num self * 2 ^ (width words - len) };

    // This number with four bits more.
    fn joined(self, nibble: u32) -> Self
        requires { 16 * num self + nibble < 2 ^ width words }
        ensures { num result ≡ 16 * num self + nibble };

    // This number without its last bit.
    fn half(self) -> Self
        ensures { num result ≡ num self / 2 };

    ghost some: { 0 < words };

    ghost few: { words ≤ 4 };
}

impl Key for u32 {
    ghost num = { λ x. x };

    ghost words = { 1 };

    ghost some = { Prim.search rules };

    ghost few = { Prim.search rules };

    fn words() -> usize {
        1
    }

    fn load(row: &[u32], at: usize) -> u32 {
        row[at]
    }

    fn store(self, row: &mut [u32], at: usize) {
        row[at] = self;
    }

    fn is_below(self, other: u32) -> bool {
        self < other
    }

    fn is_same(self, other: u32) -> bool {
        self == other
    }

    fn is_zero(self) -> bool {
        self == 0
    }

    fn nibble(self) -> u32 {
        self / 0x1000_0000
    }

    fn rest(self) -> u32 {
        self % 0x1000_0000 * 16
    }

    fn first(self, len: u32) -> u32 {
        ((self as u64) >> (32 - len)) as u32
    }

    fn placed(self, len: u32) -> u32 {
        ((self as u64) << (32 - len)) as u32
    }

    fn joined(self, nibble: u32) -> u32 {
        self * 16 + nibble
    }

    fn half(self) -> u32 {
        self / 2
    }
}
