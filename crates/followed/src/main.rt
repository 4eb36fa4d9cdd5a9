// The next program, to take the place of `jeghrumo`: it reads commands from the files named, or from standard input, one a line, and prints what is replied to each. It only reads and prints; what a line does is said by `serve::respond`.
#![tactic(auto)]

ghost use Rattle.table.specs.Right.{Right};

use anyhow::anyhow;
use serve::{Printed, Reply};
use std::io::{BufReader, BufWriter, Read, Write};
use std::{env, fs, io};
use text::Refusal;

fn main(rt: HostRuntime) -> anyhow::Result<()> {
    run(&rt)
}

// Follows the files named, in order, or standard input where none is. The table goes on from file to file; lines are counted anew in each.
fn run(rt: &HostRuntime) -> anyhow::Result<()> {
    let Some(mut row) = serve::make(rt.alloc(), serve::FIRST_ROOM) else {
        return Err(anyhow!("no memory for a table"));
    };
    let mut names = env::args(rt)?;
    names.next();
    let mut named = false;
    for name in names {
        follow_file(rt, &mut row, name.as_str())?;
        named = true;
    }
    if !named {
        follow_file(rt, &mut row, "-")?;
    }
    Ok(())
}

// Follows one file; `-` is standard input. `Right` is asked of these three functions, and not put into a type: `serve` takes rows that are no right tables too, and a type would refuse them.
fn follow_file(rt: &HostRuntime, row: &mut Vec<u32>, name: &str) -> anyhow::Result<()>
    requires { Right 1 row.old.items }
    ensures { Right 1 row.new.items }
{
    if name == "-" {
        follow(rt, row, BufReader::new(rt.alloc(), rt.stdin())?)?;
        return Ok(());
    }
    match fs::open(rt, name) {
        Ok(file) => {
            follow(rt, row, BufReader::new(rt.alloc(), file)?)?;
            Ok(())
        }
        Err(error) => {
            say_unopened(rt, name)?;
            Err(error.into())
        }
    }
}

fn say_unopened(rt: &HostRuntime, name: &str) -> io::Result<()> {
    eprintln!(rt; "{name} cannot be opened")
}

// Follows every line.
fn follow<R: Read + Drop>(
    rt: &HostRuntime,
    row: &mut Vec<u32>,
    mut input: BufReader<R>,
) -> io::Result<()>
    requires { Right 1 row.old.items }
    ensures { Right 1 row.new.items }
{
    let mut out = BufWriter::new(rt.alloc(), rt.stdout())?;
    let mut line = Vec::new(rt.alloc());
    // Counted, since nothing says that an input ends.
    for number in 0..u64::MAX {
        if !serve::next_line(&mut input, &mut out, &mut line)? {
            break;
        }
        answer(rt, &mut out, row, line.as_slice(), number)?;
    }
    out.flush()
}

// Answers one line, its number counted from 0. That a line cannot be read is explained on standard error too.
fn answer<W: Write>(
    rt: &HostRuntime,
    out: &mut W,
    row: &mut Vec<u32>,
    line: &[u8],
    number: u64,
) -> io::Result<()>
    requires { Right 1 row.old.items }
    ensures { Right 1 row.new.items }
{
    let Some(reply) = serve::respond(rt.alloc(), row, line, number) else {
        return Ok(());
    };
    if let Reply::Refused(Refusal::Line { line }) = reply {
        eprintln!(rt;
            "line {line} cannot be read; the commands are table, put, away, look, beneath, list, nodes and help"
        )?;
    }
    let printed = Printed { reply, row };
    writeln!(out, "{printed}")
}
