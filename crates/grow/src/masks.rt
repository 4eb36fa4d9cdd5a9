// The cells that a prefix covers in the last node of its way, as sixteen bits, and the words of these cells.
ghost use Rattle.std.specs.Prelude.{◌≡◌, ℕ, ◌+◌, ◌-◌, ◌*◌, ◌/◌, ◌%◌, ◌^◌, ◌<◌, ◌≤◌, true, false, length, set, if◌then◌else◌, is_some, ◌==◌, count_ones, nat_le, slice_set};
ghost use Rattle.prefix.specs.Words.{width};
ghost use Rattle.prefix.specs.Routes.{first};
ghost use Rattle.grow.specs.Ways.{depth_of, Ahead};
ghost use Rattle.grow.specs.Cells.{bit, Cells, Written};

use prefix::{Key, Prefix};

// Bit k is set where the prefix covers cell k. No bit is where the prefix has none itself, or more than a key.
pub fn cells<K: Key>(prefix: Prefix<K>) -> u16
    ensures bits { 0 < prefix.len → prefix.len ≤ width K.Key.words → Cells prefix.len (first (width K.Key.words) prefix.len (K.Key.num prefix.bits)) (depth_of prefix.len) result }
    ensures count { 0 < prefix.len → prefix.len ≤ width K.Key.words → count_ones result ≡ 2 ^ (4 * depth_of prefix.len + 4 - prefix.len) }
    ensures none { prefix.len ≡ 0 → result ≡ 0 }
    ensures long { width K.Key.words < prefix.len → result ≡ 0 }
{
    if prefix.len == 0 || prefix.len as usize > 32 * K::words() {
        return 0;
    }
    let nibble = last_nibble(prefix.bits, prefix.len);
    covered(nibble, (prefix.len - 1) % 4 + 1)
}

// The nibble in which what is left of a prefix ends.
fn last_nibble<K: Key>(rest: K, len: u32) -> u32
    ensures small { K.Key.num rest < 2 ^ width K.Key.words }
    ensures below { result < 16 }
    ensures ends { (l q d : ℕ) → Ahead (width K.Key.words) l q d len (K.Key.num rest) → result / 2 ^ (4 * depth_of l + 4 - l) ≡ q % 2 ^ (l - 4 * depth_of l) }
{
    let nibble = rest.nibble();
    if len <= 4 {
        return nibble;
    }
    last_nibble(rest.rest(), len - 4)
}

// The nibbles that begin with the first `len` bits of this one: they stand together, and are 1, 2, 4, 8 or 16.
fn covered(nibble: u32, len: u32) -> u16
    requires { (nibble < 16) × (len ≤ 4) }
    ensures bits { (k : ℕ) → k < 16 → bit result k ≡ (k / 2 ^ (4 - len) == nibble / 2 ^ (4 - len)) }
    ensures count { count_ones result ≡ 2 ^ (4 - len) }
{
    let many = 1u32 << (4 - len);
    let from = nibble / many * many;
    (((1u32 << many) - 1) << from) as u16
}

// Writes the words of the cells whose bits are set, and nothing else. None where the row has no such node.
pub fn write_words(nodes: &mut [u32], node: u32, mask: u16, words: &[u32; 16]) -> Option<()>
    ensures fits { is_some result ≡ nat_le (32 * (node + 1)) (length nodes.old) }
    ensures written { is_some result ≡ true → Written node mask words.now nodes.old nodes.new }
    ensures same { is_some result ≡ false → nodes.new ≡ nodes.old }
{
    let from = 32 * (node as usize);
    if nodes.len() < from + 32 {
        return None;
    }
    for (k, word) in words.iter().enumerate() {
        write_word(nodes, from + 2 * k, has(mask, k as u32), *word);
    }
    Some(())
}

// Whether bit k is set.
fn has(mask: u16, k: u32) -> bool
    requires { k < 16 }
    ensures { result ≡ bit mask k }
{
    mask >> k & 1 == 1
}

// One word, or none: a function of its own, so that the loop has no branch of its own to prove.
fn write_word(nodes: &mut [u32], at: usize, wanted: bool, word: u32)
    requires { at < length nodes.old }
    ensures { nodes.new ≡ (if wanted then slice_set nodes.old at word else nodes.old) }
{
    if wanted {
        nodes[at] = word;
    }
}
