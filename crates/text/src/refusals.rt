// Why something is turned away, and where, for the readers of lines and for whoever replies.
ghost use Rattle.std.specs.Prelude.{Some};
ghost use Rattle.text.specs.Refusals.{refused};

use std::fmt;

// What is turned away, with its place: a route's length where it has no prefix, a hop that there is not, or a line that cannot be read. They print with the numbers 1, 2 and 3.
#[derive(Clone, Copy, Debug, PartialEq, Eq)]
pub enum Refusal {
    Prefix { len: u64 },
    Hop { hop: u64 },
    Line { line: u64 },
}

impl fmt::Display for Refusal {
    ghost output = { λ r. Some (refused r) };

    fn fmt<W: fmt::Write>(&self, f: &mut fmt::Formatter<W>) -> fmt::Result {
        match *self {
            Refusal::Prefix { len } => write!(f, "refused 1 at {len}"),
            Refusal::Hop { hop } => write!(f, "refused 2 at {hop}"),
            Refusal::Line { line } => write!(f, "refused 3 at {line}"),
        }
    }
}
