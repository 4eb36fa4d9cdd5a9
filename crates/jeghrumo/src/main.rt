// The program: it reads commands from standard input, one a line, and prints what is replied to each. It only reads and prints; what a line does is said by `serve::follow`.
#![tactic(auto)]

ghost use Rattle.table.specs.Right.{Right};
ghost use Rattle.jeghrumo.specs.Reads.{ReadSays};

use anyhow::anyhow;
use lines::{Command, Line};
use serve::Printed;
use std::alloc::Global;
use std::io;
use std::io::{BufReader, BufWriter, Write};
use text::Refusal;

fn main(rt: HostRuntime) -> anyhow::Result<()> {
    run(&rt)
}

// Answers every line of standard input.
fn run(rt: &HostRuntime) -> anyhow::Result<()> {
    let heap = rt.alloc();
    let Some(mut row) = serve::make(heap, serve::FIRST_ROOM) else {
        return Err(anyhow!("no memory for a table"));
    };
    let mut input = BufReader::new(heap, rt.stdin())?;
    let mut out = BufWriter::new(heap, rt.stdout())?;
    let mut line = Vec::new(heap);
    // Counted, since nothing says that an input ends.
    for number in 0..u64::MAX {
        if !serve::next_line(&mut input, &mut out, &mut line)? {
            break;
        }
        answer(heap, &mut out, &mut row, line.as_slice(), number)?;
    }
    out.flush()?;
    Ok(())
}

// Answers one line, its number counted from 0.
fn answer<W: Write>(
    heap: Global,
    out: &mut W,
    row: &mut Vec<u32>,
    line: &[u8],
    number: u64,
) -> io::Result<()>
    ensures { Right 1 row.old.items → Right 1 row.new.items }
{
    let Some(reply) = serve::follow(heap, row, read(line, number)) else {
        return Ok(());
    };
    let printed = Printed { reply, row };
    writeln!(out, "{printed}")
}

// What a line says to this program, which knows neither `list` nor `help`.
#[tactic(auto, using(crate::proofs::Narrows::narrow))]
fn read(line: &[u8], place: u64) -> Result<Line, Refusal>
    ensures { ReadSays line.now place result }
{
    match lines::read(line, place) {
        Ok(Line::Command(Command::List | Command::Help)) => Err(Refusal::Line { line: place }),
        said => said,
    }
}
