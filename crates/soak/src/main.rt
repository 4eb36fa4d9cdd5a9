// Tables run for long, from a seed: random changes, with the trie compared with the plain scan after each; and lookups in rows of any numbers.
#![tactic(auto)]

use anyhow::anyhow;
use trials::{Chance, Counts, Seen};

mod tables;

// Rooms of the tables, and how many changes each goes through.
const ROOMS: [u32; 5] = [1, 2, 7, 100, 1000];

const CHANGES: u32 = 20_000;

fn main(rt: HostRuntime) -> anyhow::Result<()> {
    run(&rt)
}

fn run(rt: &HostRuntime) -> anyhow::Result<()> {
    let mut chance = Chance::from_seed(20_261_117);
    for room in ROOMS {
        let Some(counts) = tables::change_and_compare(rt.alloc(), &mut chance, room, CHANGES) else {
            return Err(anyhow!("no memory for a table"));
        };
        let Counts {
            changes,
            compared,
            differences,
        } = counts;
        println!(rt;
            "room {room}: {changes} changes, {compared} compared, differences {differences}"
        )?;
    }
    let Seen { to, nowhere } = trials::look_everywhere(&mut chance);
    println!(rt; "damaged rows: {to} lookups found a hop, {nowhere} none")?;
    Ok(())
}
