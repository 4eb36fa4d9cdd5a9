// The laws of longest-prefix match, each the contract of a function of its own: for whoever cites one.
ghost use Rattle.prefix.specs.Laws.{Longest, AnyOrder, StillGood, OnlyThere, Undone, EitherOrder, ByMap, Worked};

// Any list answers by the longest of its routes that match, or 0 where none does.
pub fn longest_holds()
    ensures { Longest }
{}

// The order of a good list does not matter.
pub fn any_order_holds()
    ensures { AnyOrder }
{}

// Put and away leave a good list good.
pub fn still_good_holds()
    ensures { StillGood }
{}

// Put and away change no answer to a key that the prefix does not match.
pub fn only_there_holds()
    ensures { OnlyThere }
{}

// A prefix put back as it was held leaves the answers as they were.
pub fn undone_holds()
    ensures { Undone }
{}

// Two prefixes can be put in either order.
pub fn either_order_holds()
    ensures { EitherOrder }
{}

// A good list answers as its map does, from long prefixes to short.
pub fn by_map_holds()
    ensures { ByMap }
{}

// Four routes of 32 bits and three keys, worked out.
pub fn worked_holds()
    ensures { Worked }
{}
