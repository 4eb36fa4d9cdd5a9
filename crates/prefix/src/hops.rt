// A hop or none as one number, as the cells of a trie and the answers to C hold it: 0, or one more than the hop.
ghost use Rattle.std.specs.Prelude.{◌≡◌, ◌^◌, ◌<◌};
ghost use Rattle.prefix.specs.Map.{told};

// The hop that a word tells.
pub fn hop_in(word: u32) -> Option<u32>
    ensures value { told result ≡ word }
    ensures low { told result < 2 ^ 32 }
{
    word.checked_sub(1)
}

// The word that tells a hop, of all but the largest number.
pub fn word_of(hop: Option<u32>) -> u32
    ensures { told hop < 2 ^ 32 → result ≡ told hop }
{
    match hop {
        Some(hop) => hop.wrapping_add(1),
        None => 0,
    }
}
