// Last nodes moved to the free numbers, so that the nodes in use stand first again. Each move copies a node and then mends the cell that named it: a reader in between finds the same in the old place.
ghost use Rattle.std.specs.Prelude.{◌≡◌, ℕ, ◌+◌, ◌-◌, ◌*◌, ◌<◌, ◌≤◌, ◌≢◌, length, Some, None, MatchOption, IfSome, slice_index};
ghost use Rattle.prefix.specs.Map.{Hops};
ghost use Rattle.trie.specs.Shape.{TrieOf};
ghost use Rattle.trie.proofs.Changes.{Moved};
ghost use Rattle.prune.specs.Free.{Used, Loose, Partly};

use crate::hints::Nodes;

// Closes all holes, and answers how many nodes are left; None where a hint fails.
pub fn close_up(nodes: &mut [u32], count: u32, hints: usize, free: &mut [u32]) -> Option<u32>
    ensures { IfSome result (λ n. (w : ℕ) (m : Hops) → Partly w m nodes.old count free.old (length free.old) → TrieOf w m nodes.new n × (n + length free.old ≡ count)) }
{
    if nodes.len() < 32 * count as usize || free.len() > count as usize {
        return None;
    }
    // Hints stand behind all nodes, those that are vacated too: a reader may still go on in one.
    if hints < 32 * count as usize {
        return None;
    }
    let mut nodes = Nodes {
        row: nodes,
        count,
        hints,
    };
    nodes.close_all(free)?;
    Some(nodes.count)
}

impl<'a> Nodes<'a> {
    // Closes all holes, each by one turn; None where a hint fails.
    fn close_all(&mut self, free: &mut [u32]) -> Option<()>
        requires { length free.old ≤ self.old.count }
        ensures lent { self.new.row.ghost_name ≡ self.old.row.ghost_name }
        ensures closed { IfSome result (λ _. (self.new.count + length free.old ≡ self.old.count) × ((w : ℕ) (m : Hops) → Partly w m self.old.row.now self.old.count free.old (length free.old) → TrieOf w m self.new.row.now self.new.count)) }
    {
        for others in (0..free.len()).rev() {
            self.close_one(&mut free[..=others])?;
            self.count -= 1;
        }
        Some(())
    }

    // One number less is free, and the last node is no longer in use; None where a hint fails.
    fn close_one(&mut self, free: &mut [u32]) -> Option<()>
        requires some { 0 < length free.old }
        requires more { 0 < self.old.count }
        ensures lent { self.new.row.ghost_name ≡ self.old.row.ghost_name }
        ensures count { self.new.count ≡ self.old.count }
        ensures closed { IfSome result (λ _. (w : ℕ) (m : Hops) → Partly w m self.old.row.now self.old.count free.old (length free.old) → Partly w m self.new.row.now (self.old.count - 1) free.new (length free.old - 1)) }
    {
        let last = self.count - 1;
        let filler = free[free.len() - 1];
        if let Some(at) = place_of(free, last) {
            free[at] = filler;
            return Some(());
        }
        let at = smallest(free);
        let hole = free[at];
        if hole >= last {
            return None;
        }
        self.move_last(free, hole)?;
        free[at] = filler;
        Some(())
    }

    // Moves the last node to the free number `hole`; None where its hint fails.
    fn move_last(&mut self, free: &[u32], hole: u32) -> Option<()>
        requires below { hole + 1 < self.old.count }
        ensures lent { self.new.row.ghost_name ≡ self.old.row.ghost_name }
        ensures count { self.new.count ≡ self.old.count }
        ensures moved { IfSome result (λ _. (w : ℕ) (m : Hops) → Loose w m self.old.row.now (Used self.old.count free.now (length free.now)) → (Used self.old.count free.now (length free.now) hole → ⊥) → Used self.old.count free.now (length free.now) (self.old.count - 1) → Loose w m self.new.row.now (Moved (Used self.old.count free.now (length free.now)) hole (self.old.count - 1))) }
    {
        let last = self.count - 1;
        let place = self.hinted(last)?;
        // A cell of a free node names nothing.
        if free.contains(&((place / 32) as u32)) {
            return None;
        }
        let from = 32 * last as usize;
        self.row.copy_within(from..from + 32, 32 * hole as usize);
        self.row[place] = hole;
        self.set_moved(hole, place);
        Some(())
    }
}

// Where the smallest free number stands: holes are filled from below, so that none is filled that would be free again.
fn smallest(free: &[u32]) -> usize
    requires { 0 < length free.now }
    ensures place { result < length free.now }
    ensures smallest { (p : ℕ) → p < length free.now → slice_index free.now result ≤ slice_index free.now p }
{
    (0..free.len()).min_by_key(|p| free[*p]).unwrap()
}

// Where a node stands among the free numbers.
fn place_of(free: &[u32], node: u32) -> Option<usize>
    ensures { MatchOption result ((p : ℕ) → p < length free.now → slice_index free.now p ≢ node) (λ p. (p < length free.now) × (slice_index free.now p ≡ node)) }
{
    free.iter().position(|number| *number == node)
}
