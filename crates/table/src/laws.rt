// What holds of right tables and their changes, each the contract of a function that does nothing: for whoever cites one.
ghost use Rattle.table.specs.Answers.{RightMeans};
ghost use Rattle.table.specs.Laws.{OrderFree, MattersOnlyThere, UndoneByInverse};

// The trie answers each key as the list does, its cells name nodes that there are, and there are not too many.
pub fn right_means_holds()
    ensures { RightMeans }
{}

// The order in which routes came does not matter to any answer.
pub fn order_free_holds()
    ensures { OrderFree }
{}

// A change matters to no key that does not begin so.
pub fn matters_only_there_holds()
    ensures { MattersOnlyThere }
{}

// A change is undone by its inverse.
pub fn undone_by_inverse_holds()
    ensures { UndoneByInverse }
{}
