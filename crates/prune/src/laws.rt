// What holds while nodes are free, each the contract of a function of its own: for whoever cites one.
ghost use Rattle.prune.specs.Laws.{Answers, FreeAny};

// After the cut and after each move the row answers as the map.
pub fn answers_holds()
    ensures { Answers }
{}

// What stands in free nodes may be anything.
pub fn free_any_holds()
    ensures { FreeAny }
{}
