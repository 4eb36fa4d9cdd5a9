// The reader of a line of bytes, for the program that serves a table.
ghost use Rattle.std.specs.Prelude.{◌≡◌};
ghost use Rattle.lines.specs.Commands.{reads, widened};
ghost use Rattle.lines.specs.Lines.{ReadSays, chomped};

use crate::commands::Command;
use std::str::from_utf8;
use text::Refusal;

// A line that can be read. A blank one, or one that begins with `#`, is passed over.
#[derive(Clone, Copy, Debug, PartialEq, Eq)]
pub enum Line {
    Blank,
    Command(Command),
}

impl From<text::Line> for Line {
    ghost from_gives = { λ line result. result ≡ widened line };

    fn from(line: text::Line) -> Line {
        match line {
            text::Line::Blank => Line::Blank,
            text::Line::Command(command) => Line::Command(Command::Basic(command)),
        }
    }
}

// What a line says, with or without what ends it, or that it cannot be read: it is no UTF-8, or no command. Its place is its number in the input, counted from 0.
pub fn read(line: &[u8], place: u64) -> Result<Line, Refusal>
    ensures { ReadSays line.now place result }
{
    let Ok(text) = from_utf8(chomp(line)) else {
        return Err(Refusal::Line { line: place });
    };
    understood(text).ok_or(Refusal::Line { line: place })
}

// A line without what ends it.
fn chomp(line: &[u8]) -> &[u8]
    ensures { result.now ≡ chomped line.now }
{
    match line {
        [text @ .., b'\r', b'\n'] => text,
        [text @ .., b'\n'] => text,
        _ => line,
    }
}

// What a line of text says, if anything.
fn understood(line: &str) -> Option<Line>
    ensures { result ≡ reads line.now }
{
    match line {
        "list" => Some(Line::Command(Command::List)),
        "help" => Some(Line::Command(Command::Help)),
        _ => text::read(line).map(Line::from),
    }
}
