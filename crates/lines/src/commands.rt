// The commands of a program that lists its table and helps, for the program that serves the table.
ghost use Rattle.std.specs.Prelude.{Some};
ghost use Rattle.lines.specs.Commands.{said};

use std::fmt;

// What a line asks for: one of the commands of `text`, or one of those that stand beside them.
#[derive(Clone, Copy, Debug, PartialEq, Eq)]
pub enum Command {
    Basic(text::Command),
    List,
    Help,
}

impl fmt::Display for Command {
    ghost output = { λ x. Some (said x) };

    fn fmt<W: fmt::Write>(&self, f: &mut fmt::Formatter<W>) -> fmt::Result {
        match self {
            Command::Basic(command) => write!(f, "{command}"),
            Command::List => write!(f, "list"),
            Command::Help => write!(f, "help"),
        }
    }
}
