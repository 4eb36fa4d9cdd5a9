// What holds of every trie of a map, each the contract of a function of its own: for whoever cites one.
ghost use Rattle.trie.specs.Theorems.{NodeBound, RoomEnough, Empty, NamedOnce, SameMap, SameRow, Worked};

// A route needs at most one node less than a key has nibbles.
pub fn node_bound_holds()
    ensures { NodeBound }
{}

// A row made for so many routes has nodes enough.
pub fn room_enough_holds()
    ensures { RoomEnough }
{}

// One node of zeros is the trie of no routes.
pub fn empty_holds()
    ensures { Empty }
{}

// Every node but the root is named by just one cell.
pub fn named_once_holds()
    ensures { NamedOnce }
{}

// A trie is one of any map with the same values.
pub fn same_map_holds()
    ensures { SameMap }
{}

// What stands behind a trie's nodes may be anything.
pub fn same_row_holds()
    ensures { SameRow }
{}

// The two nodes of one route, worked out.
pub fn worked_holds()
    ensures { Worked }
{}
