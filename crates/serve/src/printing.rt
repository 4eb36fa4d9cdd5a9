// How a reply is printed. Routes are read from the row where they stand, so that none is copied.
ghost use Rattle.std.specs.Prelude.{◌-◌, Some};
ghost use Rattle.std.specs.Fmt.{WritesOnOk};
ghost use Rattle.prefix.specs.Routes.{route_of};
ghost use Rattle.routes.specs.Rows.{routes};
ghost use Rattle.serve.specs.Replies.{written, lines, between, route_line};

use crate::replies::Reply;
use prefix::Prefix;
use routes::List;
use std::fmt;
use text::Dotted;

// A reply beside the row that it speaks of.
#[derive(Clone, Copy)]
pub struct Printed<'a> {
    pub reply: Reply,
    pub row: &'a [u32],
}

impl<'a> fmt::Display for Printed<'a> {
    ghost output = { λ x. Some (written (routes 1 3 x.row.now) x.reply) };

    fn fmt<W: fmt::Write>(&self, f: &mut fmt::Formatter<W>) -> fmt::Result {
        match self.reply {
            Reply::To(hop) => write!(f, "{hop}"),
            Reply::Nowhere => write!(f, "nowhere"),
            Reply::Ready => write!(f, "ready"),
            Reply::Full => write!(f, "full"),
            Reply::Without => write!(f, "without"),
            Reply::Refused(refusal) => write!(f, "{refusal}"),
            Reply::NoMemory => write!(f, "no memory"),
            Reply::Beneath { from, to } => {
                write_routes(f, "", self.row, from, to)?;
                let count = to.saturating_sub(from);
                write!(f, "{count} beneath")
            }
            Reply::Listed(count) => {
                write_routes(f, "put ", self.row, 0, count)?;
                write!(f, "# {count} routes")
            }
            Reply::Nodes(count) => write!(f, "{count} nodes"),
            Reply::Help => write!(
                f,
                "table ROOM\nput ADDRESS LENGTH to HOP\naway ADDRESS LENGTH\nlook ADDRESS\nbeneath ADDRESS LENGTH\nlist\nnodes\nhelp"
            ),
        }
    }
}

// Writes a line for each route of the row from one place to before another, all beginning alike.
fn write_routes<W: fmt::Write>(
    f: &mut fmt::Formatter<W>,
    opening: &str,
    row: &[u32],
    from: usize,
    to: usize,
) -> fmt::Result
    ensures { WritesOnOk W.write_str_gives f.old result (lines opening.now (between from to (routes 1 3 row.now))) f.new }
{
    let list = List::over(row, 3);
    // By place, in which the places replied are told: `skip` would step over all that come before, and the invariant would count what it took.
    for k in from..to {
        let Some((prefix, hop)) = list.route(k) else {
            break;
        };
        write_route(f, opening, prefix, hop)?;
    }
    Ok(())
}

fn write_route<W: fmt::Write>(
    f: &mut fmt::Formatter<W>,
    opening: &str,
    prefix: Prefix<u32>,
    hop: u32,
) -> fmt::Result
    ensures { WritesOnOk W.write_str_gives f.old result (route_line opening.now (route_of prefix.bits prefix.len hop)) f.new }
{
    let (address, len) = (Dotted(prefix.bits), prefix.len);
    writeln!(f, "{opening}{address} {len} to {hop}")
}
