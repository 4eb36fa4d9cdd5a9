// What a run counts.
ghost use Rattle.std.specs.Prelude.{◌≡◌};
ghost use Rattle.trials.specs.Counts.{nothing, tried, noted};

use table::Done;

// How many changes were carried out, how many answers were compared, and how many of these were not the same.
#[derive(Clone, Copy)]
pub struct Counts {
    pub changes: u64,
    pub compared: u64,
    pub differences: u64,
}

impl Counts {
    // Before the run.
    pub fn nothing() -> Counts
        ensures { result ≡ nothing }
    {
        Counts {
            changes: 0,
            compared: 0,
            differences: 0,
        }
    }

    // Counts a change that was tried, if it was carried out.
    pub(crate) fn note_change(&mut self, done: Done)
        ensures { self.new ≡ tried self.old done }
    {
        if done == Done::Ready {
            self.changes = self.changes.saturating_add(1);
        }
    }

    // Counts what was compared, and whether it was the same.
    pub fn note(&mut self, same: bool)
        ensures { self.new ≡ noted self.old same }
    {
        self.compared = self.compared.saturating_add(1);
        if !same {
            self.differences = self.differences.saturating_add(1);
        }
    }
}
