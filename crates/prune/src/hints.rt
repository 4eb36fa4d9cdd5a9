// Hints: numbers behind the nodes that say for each node the place of the cell that names it. A hint is never trusted: it counts only if a cell stands there and names the node, so that no proof speaks of hints.
ghost use Rattle.std.specs.Prelude.{◌*◌, ◌≤◌, length};

// A row lent: the first `count` nodes are in use, and from `hints` on stand their hints.
#[derive(Drop)]
pub(crate) struct Nodes<'a> {
    pub row: &'a mut [u32],
    pub count: u32,
    pub hints: usize,
    ghost long: { 32 * count ≤ length row.now },
}

impl<'a> Nodes<'a> {
    ghost use Rattle.std.specs.Prelude.{◌<◌, IfSome};
    ghost use Rattle.prune.specs.Free.{Names};
    ghost use Rattle.prune.specs.Hints.{Untouched};

    // The place of the cell that names a node.
    pub(crate) fn hinted(&self, node: u32) -> Option<usize>
        ensures { IfSome result (λ p. Names self.now.row.now self.now.count node p) }
    {
        let place = *self.row.get(self.hints..)?.get(node as usize)? as usize;
        if place % 2 == 0 || place >= 32 * self.count as usize || self.row[place] != node {
            return None;
        }
        Some(place)
    }

    // After a move: the hint of the moved node, and of those that it names.
    pub(crate) fn set_moved(&mut self, node: u32, place: usize)
        requires { node < self.old.count }
        ensures { Untouched self.old self.new }
    {
        self.set_hint(node, place);
        self.set_children(node);
    }

    // Writes the hints of the nodes that a node names.
    fn set_children(&mut self, node: u32)
        requires { node < self.old.count }
        ensures { Untouched self.old self.new }
    {
        let from = 32 * node as usize;
        for place in (from + 1..from + 32).step_by(2) {
            let child = self.row[place];
            if child != 0 {
                self.set_hint(child, place);
            }
        }
    }

    // Writes a hint, or nothing where that would not lie behind the nodes.
    fn set_hint(&mut self, node: u32, place: usize)
        ensures { Untouched self.old self.new }
    {
        let Ok(hint) = u32::try_from(place) else {
            return;
        };
        if self.hints >= 32 * self.count as usize
            && self.hints < self.row.len()
            && (node as usize) < self.row.len() - self.hints
        {
            self.row[self.hints + node as usize] = hint;
        }
    }
}
