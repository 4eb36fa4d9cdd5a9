// Changes by chance: routes that lie in one another, for the most part.
use prefix::Prefix;
use routes::{Extent, List};
use table::Change;
use trials::{Chance, behind};

// A route to be put: one in three anywhere, the others above or below a route that is there.
pub(crate) fn any_put(row: &[u32], chance: &mut Chance) -> Change {
    let drawn = Prefix {
        bits: chance.next(),
        len: chance.next() % 33,
    };
    let near = if chance.next() % 3 == 0 {
        drawn
    } else {
        near_route(row, chance).unwrap_or(drawn)
    };
    Change::Put {
        bits: near.bits & !behind(near.len as u64),
        len: near.len as u64,
        hop: (chance.next() % 65_536) as u64,
    }
}

// A route to be taken away: in nine of ten cases one that is there.
pub(crate) fn any_away(row: &[u32], chance: &mut Chance) -> Change {
    let anywhere = Prefix {
        bits: chance.next(),
        len: chance.next() % 33,
    };
    let taken = if chance.next() % 10 == 0 {
        anywhere
    } else {
        held_route(row, chance).unwrap_or(anywhere)
    };
    Change::Away {
        bits: taken.bits,
        len: taken.len as u64,
    }
}

// A route of the table, by chance.
pub(crate) fn held_route(row: &[u32], chance: &mut Chance) -> Option<Prefix<u32>> {
    let count = Extent::of::<u32>(row, 3).count as u32;
    if count == 0 {
        return None;
    }
    let (held, _) = List::<u32>::over(row, 3).route((chance.next() % count) as usize)?;
    Some(held)
}

// Bits that begin as a route of the table does, and another length.
fn near_route(row: &[u32], chance: &mut Chance) -> Option<Prefix<u32>> {
    let held = held_route(row, chance)?;
    let bits = held.bits | (chance.next() & behind(held.len as u64));
    let len = chance.next() % 33;
    Some(Prefix { bits, len })
}
