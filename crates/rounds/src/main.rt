// The next soak, to take the place of `soak`. Tables run for long, from a seed: filled and emptied by random changes, with the trie compared with the plain scan after each; and lookups in rows of any numbers. `rounds ROUNDS SEED` runs as long as one likes.
#![tactic(auto)]

mod draws;
mod rounds;

use anyhow::anyhow;
use rounds::Trial;
use std::env;
use trials::{Chance, Counts, Seen};

// Rooms of the tables.
const ROOMS: [u32; 5] = [1, 2, 7, 100, 5000];

// What a run without arguments does.
const ROUNDS: u64 = 1;

const SEED: u64 = 20_261_117;

fn main(rt: HostRuntime) -> anyhow::Result<()> {
    run(&rt)
}

fn run(rt: &HostRuntime) -> anyhow::Result<()> {
    let mut words = env::args(rt)?;
    words.next();
    let rounds = number(words.next(), ROUNDS)?;
    let mut chance = Chance::from_seed(number(words.next(), SEED)?);
    let mut differences = 0u64;
    for room in ROOMS {
        let counts = soak(rt, &mut chance, room, rounds)?;
        differences = differences.saturating_add(counts.differences);
    }
    let Seen { to, nowhere } = trials::look_everywhere(&mut chance);
    println!(rt; "damaged rows: {to} lookups found a hop, {nowhere} none")?;
    if differences > 0 {
        return Err(anyhow!("the trie and the list differ"));
    }
    Ok(())
}

// An argument as a number, or what stands in for it.
fn number(word: Option<String>, otherwise: u64) -> anyhow::Result<u64> {
    match word {
        Some(word) => Ok(word.as_str().parse::<u64>()?),
        None => Ok(otherwise),
    }
}

// Fills and empties a table so many times.
fn soak(rt: &HostRuntime, chance: &mut Chance, room: u32, rounds: u64) -> anyhow::Result<Counts> {
    let Some(mut trial) = Trial::begin(rt.alloc(), room) else {
        return Err(anyhow!("no memory for a table"));
    };
    for round in 0..rounds {
        trial.fill(chance, room);
        trial.stir(chance);
        trial.drain(chance, room);
        if rounds > 1 {
            let done = round.saturating_add(1);
            eprintln!(rt; "room {room}: {done} of {rounds} rounds")?;
        }
    }
    let Counts {
        changes,
        compared,
        differences,
    } = trial.counts;
    println!(rt;
        "room {room}: {changes} changes, {compared} numbers compared, differences {differences}"
    )?;
    Ok(trial.counts)
}
