// Random nested routes put, replaced and taken away; after each change the trie is compared with the plain scan of the list.
use prefix::Prefix;
use routes::{Extent, List};
use std::alloc::Global;
use table::Change;
use trials::{Chance, Counts};

// How many addresses by chance are compared after each change.
const ADDRESSES: u32 = 8;

// Changes a table of so much room, and compares. None where there is no memory for it.
pub(crate) fn change_and_compare(
    heap: Global,
    chance: &mut Chance,
    room: u32,
    changes: u32,
) -> Option<Counts> {
    let mut row = trials::empty_table(heap, room)?;
    let mut counts = Counts::nothing();
    for _ in 0..changes {
        let change = any_change(&row, chance);
        trials::try_change(&mut row, change, &mut counts);
        compare_anywhere(&row, chance, &mut counts);
    }
    compare_anew(&mut row, &mut counts);
    Some(counts)
}

// A route beneath 10.0.0.0/8, so that many lie in one another. Three in five are put; of the others most are in the table.
fn any_change(row: &[u32], chance: &mut Chance) -> Change {
    let len = (chance.next() % 33) as u64;
    let bits = any_address(chance) & !trials::behind(len);
    match chance.next() % 5 {
        0 | 1 | 2 => Change::Put {
            bits,
            len,
            hop: (chance.next() % 65_536) as u64,
        },
        _ => match drawn_route(row, chance) {
            Some(held) => Change::Away {
                bits: held.bits,
                len: held.len as u64,
            },
            None => Change::Away { bits, len },
        },
    }
}

// An address in 10.0.0.0/8.
fn any_address(chance: &mut Chance) -> u32 {
    0x0a00_0000 + chance.next() % 0x0100_0000
}

// One of the table's routes, by chance, and now and then none.
fn drawn_route(row: &[u32], chance: &mut Chance) -> Option<Prefix<u32>> {
    let count = Extent::of::<u32>(row, 3).count as u32;
    let k = chance.next() % count.saturating_add(1).max(1);
    let (held, _) = List::<u32>::over(row, 3).route(k as usize)?;
    Some(held)
}

// Compares at some addresses by chance.
fn compare_anywhere(row: &[u32], chance: &mut Chance, counts: &mut Counts) {
    for _ in 0..ADDRESSES {
        counts.note(trials::agree(row, any_address(chance)));
    }
}

// A table made anew has as many nodes.
fn compare_anew(row: &mut [u32], counts: &mut Counts) {
    let before = table::nodes(row);
    let made = table::make_anew(row).is_ok();
    counts.note(made && table::nodes(row) == before);
}
