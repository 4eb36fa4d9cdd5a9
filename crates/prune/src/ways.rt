// The way to a prefix gone down, and the nodes at its end that have become empty cut off by one write: what hangs beneath the cell is free from then on.
ghost use Rattle.std.specs.Prelude.{◌≡◌, ℕ, ◌+◌, ◌-◌, ◌*◌, ◌/◌, ◌<◌, ◌≤◌, ◌⊎◌, length, MatchOption, IfSome, MatchBool, slice_index};
ghost use Rattle.prefix.specs.Words.{width};
ghost use Rattle.prefix.specs.Map.{Hops};
ghost use Rattle.prune.specs.Free.{Partly, WithWay, Needed};
ghost use Rattle.prune.specs.Walk.{Stays, Bare, Stepped, Walked};

use crate::freed::Free;
use prefix::{Key, Prefix};

// Cuts the empty nodes off the way to a prefix, and answers their numbers, which are to be closed up. None where the row is not right.
pub fn cut_off<K: Key>(nodes: &mut [u32], count: u32, prefix: Prefix<K>) -> Option<Free>
    ensures right { IfSome result (λ f. (m : Hops) → WithWay (width K.Key.words) prefix.len (K.Key.num prefix.bits) m nodes.old count → Partly (width K.Key.words) m nodes.new count f.numbers f.left) }
    ensures kept { (m : Hops) → WithWay (width K.Key.words) prefix.len (K.Key.num prefix.bits) m nodes.old count → prefix.len ≤ width K.Key.words → Needed (width K.Key.words) prefix.len (K.Key.num prefix.bits) m → MatchOption result ⊥ (λ f. f.left ≡ 0) × (nodes.new ≡ nodes.old) }
{
    if count == 0 || nodes.len() < 32 * count as usize || prefix.len > 32 * K::words() as u32 {
        return None;
    }
    if prefix.len <= 4 {
        return Some(Free::none());
    }
    let mut end = End::root();
    end.go_down(nodes, count, prefix)?;
    // No number of a node stands at the row's end, so that none is left out.
    if stays(nodes, end.last, nodes.len()) {
        return Some(Free::none());
    }
    nodes[end.place] = 0;
    Some(end.free)
}

// Where a way stands: its last node, the nodes that would be free if that one were empty, and the cell above them.
#[derive(Clone, Copy)]
struct End {
    last: u32,
    free: Free,
    place: usize,
}

impl End {
    // At the root, which is never free.
    fn root() -> End
        ensures last { result.last ≡ 0 }
        ensures none { result.free.left ≡ 0 }
    {
        End {
            last: 0,
            free: Free::none(),
            place: 0,
        }
    }

    // Goes down from the root to the last node of the way to a prefix, of which `cut_off` has tested the length; None where the row is not right.
    fn go_down<K: Key>(&mut self, nodes: &[u32], count: u32, prefix: Prefix<K>) -> Option<()>
        requires root { self.old.last ≡ 0 }
        requires none { self.old.free.left ≡ 0 }
        requires long { 32 * count ≤ length nodes.now }
        requires some { 0 < count }
        requires deep { 4 < prefix.len }
        requires short { prefix.len ≤ width K.Key.words }
        ensures { MatchOption result ((m : Hops) → WithWay (width K.Key.words) prefix.len (K.Key.num prefix.bits) m nodes.now count → ⊥) (λ _. Walked (width K.Key.words) prefix.len (K.Key.num prefix.bits) count nodes.now ((prefix.len - 1) / 4) self.new.last self.new.place self.new.free.numbers self.new.free.left) }
    {
        let mut rest = prefix.bits;
        let mut len = prefix.len;
        // By what is left of the prefix, as `grow` makes the way.
        while len > 4 {
            self.go_on(nodes, count, rest.nibble())?;
            rest = rest.rest();
            len -= 4;
        }
        Some(())
    }

    // Goes on to the node that a cell of the last one names, or answers None where it names none. Where the last node stays, the nodes that would be free begin anew beneath it.
    fn go_on(&mut self, nodes: &[u32], count: u32, nibble: u32) -> Option<()>
        requires inside { 32 * self.old.last + 32 ≤ length nodes.now }
        requires small { nibble < 16 }
        requires room { self.old.free.left < 32 }
        ensures { let at = 32 * self.old.last + (2 * nibble + 1) in MatchOption result ((slice_index nodes.now at ≡ 0) ⊎ (count ≤ slice_index nodes.now at)) (λ _. Stepped nodes.now count self.old.last at self.old.place self.old.free.numbers self.old.free.left self.new.last self.new.place self.new.free.numbers self.new.free.left) }
    {
        let at = 32 * self.last as usize + (2 * nibble as usize + 1);
        let next = nodes[at];
        if next == 0 || next >= count {
            return None;
        }
        if self.free.left == 0 || stays(nodes, self.last, at) {
            self.free.left = 0;
            self.place = at;
        }
        self.free.push(next);
        self.last = next;
        Some(())
    }
}

// Whether a number of a node is not 0, beside that at one place.
fn stays(nodes: &[u32], node: u32, place: usize) -> bool
    requires { 32 * node + 32 ≤ length nodes.now }
    ensures { MatchBool result (Stays nodes.now node place) (Bare nodes.now node place) }
{
    let from = 32 * node as usize;
    (from..from + 32).any(|at| at != place && nodes[at] != 0)
}
