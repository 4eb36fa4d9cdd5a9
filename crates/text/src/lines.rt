// The commands of a routing table, and the reader of a line, for the program that serves the table.
ghost use Rattle.std.specs.Prelude.{◌≡◌, Some};
ghost use Rattle.text.specs.Commands.{reads, ordered, command, put, prefix, said};
ghost use Rattle.text.specs.Fields.{fields};

use crate::addresses::Dotted;
use crate::numerals::{decimal, dotted};
use std::fmt;

// What a line asks for. A length and a hop are as written: the table says whether they are in range.
#[derive(Clone, Copy, Debug, PartialEq, Eq)]
pub enum Command {
    Table { room: u64 },
    Put { bits: u32, len: u64, hop: u64 },
    Away { bits: u32, len: u64 },
    Look { address: u32 },
    Beneath { bits: u32, len: u64 },
    Nodes,
}

impl fmt::Display for Command {
    ghost output = { λ x. Some (said x) };

    fn fmt<W: fmt::Write>(&self, f: &mut fmt::Formatter<W>) -> fmt::Result {
        match *self {
            Command::Table { room } => write!(f, "table {room}"),
            Command::Put { bits, len, hop } => {
                let address = Dotted(bits);
                write!(f, "put {address} {len} to {hop}")
            }
            Command::Away { bits, len } => {
                let address = Dotted(bits);
                write!(f, "away {address} {len}")
            }
            Command::Look { address } => {
                let address = Dotted(address);
                write!(f, "look {address}")
            }
            Command::Beneath { bits, len } => {
                let address = Dotted(bits);
                write!(f, "beneath {address} {len}")
            }
            Command::Nodes => write!(f, "nodes"),
        }
    }
}

// A line that can be read. A blank one, or one that begins with `#`, is passed over.
#[derive(Clone, Copy, Debug, PartialEq, Eq)]
pub enum Line {
    Blank,
    Command(Command),
}

// What the line says, or `None` where it cannot be read.
pub fn read(line: &str) -> Option<Line>
    ensures { result ≡ reads line.now }
{
    if line.is_empty() || line.starts_with('#') {
        return Some(Line::Blank);
    }
    Some(Line::Command(ordered(line)?))
}

// The command of a line: of one word, or by its first word.
fn ordered(line: &str) -> Option<Command>
    ensures { result ≡ ordered line.now }
{
    if line == "nodes" {
        return Some(Command::Nodes);
    }
    asked(line)
}

// The command of a line, by its first word. 32 is the space.
fn asked(line: &str) -> Option<Command>
    ensures { result ≡ command (fields 32 line.now) }
{
    let (verb, rest) = line.split_once(' ')?;
    match verb {
        "table" => Some(Command::Table {
            room: decimal(rest)?,
        }),
        "put" => route(rest),
        "away" => {
            let (bits, len) = prefix(rest)?;
            Some(Command::Away { bits, len })
        }
        "look" => Some(Command::Look {
            address: dotted(rest)?,
        }),
        "beneath" => {
            let (bits, len) = prefix(rest)?;
            Some(Command::Beneath { bits, len })
        }
        _ => None,
    }
}

// A prefix, as `10.1.0.0 16`.
fn prefix(text: &str) -> Option<(u32, u64)>
    ensures { result ≡ prefix (fields 32 text.now) }
{
    let (address, len) = text.split_once(' ')?;
    Some((dotted(address)?, decimal(len)?))
}

// A prefix and its hop, as `10.1.0.0 16 to 2`.
fn route(text: &str) -> Option<Command>
    ensures { result ≡ put (fields 32 text.now) }
{
    let (address, rest) = text.split_once(' ')?;
    let (len, rest) = rest.split_once(' ')?;
    let (to, hop) = rest.split_once(' ')?;
    if to != "to" {
        return None;
    }
    let (bits, len, hop) = (dotted(address)?, decimal(len)?, decimal(hop)?);
    Some(Command::Put { bits, len, hop })
}
