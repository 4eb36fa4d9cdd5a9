// The addresses at which a change may be seen first: those at both ends of its prefix, and those next to them.
ghost use Rattle.std.specs.Prelude.{◌≡◌};
ghost use Rattle.trials.specs.Ends.{behind, prefix_of, near_ends};

use table::Change;

// The first address of a change's prefix, the last, the one before the first and the one after the last, going round at 0. Bits behind the length stay in the first.
pub(crate) fn near_ends(change: Change) -> [u32; 4]
    ensures { result ≡ near_ends change }
{
    let (first, len) = prefix_of(change);
    let last = first | behind(len);
    [first, last, first.wrapping_sub(1), last.wrapping_add(1)]
}

// The bits and the length of a change's prefix.
pub fn prefix_of(change: Change) -> (u32, u64)
    ensures { result ≡ prefix_of change }
{
    match change {
        Change::Put { bits, len, .. } | Change::Away { bits, len } => (bits, len),
    }
}

// The bits behind so many, all of them set. A length of 32 or more has none.
pub fn behind(len: u64) -> u32
    ensures { result ≡ behind len }
{
    if len < 32 {
        u32::MAX.wrapping_shr(len as u32)
    } else {
        0
    }
}
