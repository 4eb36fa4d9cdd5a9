// The replies of a routing table as single values, and how each is written, for whoever replies without the table's row at hand. `serve::Printed` writes those that speak of routes in a row.
ghost use Rattle.std.specs.Prelude.{Some};
ghost use Rattle.text.specs.Replies.{written};

use crate::addresses::Dotted;
use std::fmt;

// What the table answers to a command.
#[derive(Clone, Copy)]
pub enum Reply {
    To(u64),
    Nowhere,
    Ready,
    Full,
    Without,
    Refused { number: u64, place: u64 },
    NoMemory,
    Route { bits: u32, len: u64, hop: u64 },
    Beneath(u64),
    Nodes(u64),
}

impl fmt::Display for Reply {
    ghost output = { λ r. Some (written r) };

    fn fmt<W: fmt::Write>(&self, f: &mut fmt::Formatter<W>) -> fmt::Result {
        match *self {
            Reply::To(hop) => write!(f, "{hop}"),
            Reply::Nowhere => write!(f, "nowhere"),
            Reply::Ready => write!(f, "ready"),
            Reply::Full => write!(f, "full"),
            Reply::Without => write!(f, "without"),
            Reply::Refused { number, place } => write!(f, "refused {number} at {place}"),
            Reply::NoMemory => write!(f, "no memory"),
            Reply::Route { bits, len, hop } => {
                let address = Dotted(bits);
                write!(f, "{address} {len} to {hop}")
            }
            Reply::Beneath(count) => write!(f, "{count} beneath"),
            Reply::Nodes(count) => write!(f, "{count} nodes"),
        }
    }
}
