// The numbers of nodes that are free: what a cut leaves, for `close_up` to close.
ghost use Rattle.std.specs.Prelude.{◌≡◌, ◌+◌, ◌<◌, ◌≤◌, slice_set};

// The first `left` numbers are free. A way has fewer than 32 nodes, so they need no heap.
#[derive(Clone, Copy)]
pub struct Free {
    pub numbers: [u32; 32],
    pub left: usize,
    pub ghost few: { left ≤ 32 },
}

impl Free {
    // No number yet.
    pub(crate) fn none() -> Free
        ensures { result.left ≡ 0 }
    {
        Free {
            numbers: [0; 32],
            left: 0,
        }
    }

    // One number more.
    pub(crate) fn push(&mut self, node: u32)
        requires { self.old.left < 32 }
        ensures left { self.new.left ≡ self.old.left + 1 }
        ensures numbers { self.new.numbers ≡ slice_set self.old.numbers self.old.left node }
    {
        self.numbers[self.left] = node;
        self.left += 1;
    }
}
