// Rows of any numbers, looked up to see that each lookup ends and answers.
ghost use Rattle.std.specs.Prelude.{◌≡◌, ◌+◌, ◌*◌, ◌^◌, ◌<◌};

use crate::chance::Chance;
use table::Done;

// How many rows, and how many addresses in each.
const ROWS: u32 = 2000;

const ADDRESSES: u32 = 50;

// What damaged rows answered.
#[derive(Clone, Copy)]
pub struct Seen {
    pub to: u64,
    pub nowhere: u64,
}

// Looks addresses up in so many rows, each of them of other numbers. The contract counts the lookups; how many find a hop is pinned by what the programs print.
pub fn look_everywhere(chance: &mut Chance) -> Seen
    ensures { result.to + result.nowhere ≡ ROWS * ADDRESSES }
{
    let mut seen = Seen { to: 0, nowhere: 0 };
    for _ in 0..ROWS {
        let row = any_row(chance);
        look_around(&row, chance, &mut seen);
    }
    seen
}

// A row of any numbers: small ones for the most part, so that many name nodes and some lie past the end.
fn any_row(chance: &mut Chance) -> [u32; 600] {
    let mut row = [0; 600];
    for number in row.iter_mut() {
        let drawn = chance.next();
        *number = if drawn % 16 == 0 {
            drawn
        } else {
            drawn / 16 % 24
        };
    }
    row
}

// Looks addresses up in a row.
fn look_around(row: &[u32], chance: &mut Chance, seen: &mut Seen)
    requires { seen.old.to + seen.old.nowhere + ADDRESSES < 2 ^ 64 }
    ensures { seen.new.to + seen.new.nowhere ≡ seen.old.to + seen.old.nowhere + ADDRESSES }
{
    for _ in 0..ADDRESSES {
        match table::look(row, chance.next()) {
            Done::To(_) => seen.to += 1,
            _ => seen.nowhere += 1,
        }
    }
}
