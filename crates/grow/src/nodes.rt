// A row of nodes lent to be written, for the way that is made in it: a node is made ready for use, and where its name is to be looked for is noted.
ghost use Rattle.std.specs.Prelude.{◌≡◌, ℕ, ◌+◌, ◌*◌, ◌<◌, ◌≤◌, length, slice_index};
ghost use Rattle.grow.specs.Lent.{Kept};

// A row lent, right or not: its first `count` nodes are in use, and from `hints` on stand their hints.
#[derive(Drop)]
pub(crate) struct Nodes<'a> {
    pub row: &'a mut [u32],
    pub count: u32,
    pub hints: usize,
}

impl<'a> Nodes<'a> {
    // Sixteen cells that say nothing and name no node. A row that is lent may hold anything behind its nodes.
    pub(crate) fn clear_node(&mut self, node: u32)
        requires { 32 * (node + 1) ≤ length self.old.row.now }
        ensures kept { Kept self.old self.new (32 * node) }
        ensures blank { (y : ℕ) → y < 32 → slice_index self.new.row.now (32 * node + y) ≡ 0 }
    {
        let from = 32 * (node as usize);
        self.row[from..from + 32].fill(0);
    }

    // Notes which cell names the node, behind it and all nodes before it. Where there is no room for that, whoever wants it has to search: a hint is never trusted.
    pub(crate) fn leave_hint(&mut self, node: u32, at: usize)
        ensures { Kept self.old self.new (32 * (node + 1)) }
    {
        let number = node as usize;
        if number >= self.row.len() || self.hints >= self.row.len() - number || at > 0xffff_ffff {
            return;
        }
        let place = self.hints + number;
        if place >= 32 * (number + 1) {
            self.row[place] = at as u32;
        }
    }
}
