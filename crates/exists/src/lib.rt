// That every good list of routes has a trie, as the contract of a function: for whoever cites it.
#![tactic(auto)]

ghost use Rattle.exists.specs.Exists.{HasTrie};

// Every good list has a trie of at most so many nodes, and its lookup answers as the list does.
pub fn has_trie_holds()
    ensures { HasTrie }
{}
