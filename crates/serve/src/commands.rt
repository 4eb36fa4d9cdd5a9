// What commands and lines do to a table that is owned, and what is replied to them.
ghost use Rattle.std.specs.Prelude.{◌≡◌, [], IfSome};
ghost use Rattle.table.specs.Right.{Right, room, listed};
ghost use Rattle.table.specs.declared.entries.Change.TheVariants.{Put, Away};
ghost use Rattle.lines.specs.declared.commands.Command.TheVariants.{Basic};
ghost use Rattle.serve.specs.Serves.{Serves, Follows, Responds, Changes, Makes, Looks, Spans, reply_of};

use crate::replies::Reply;
use beneath::Span;
use lines::{Command, Line};
use routes::Extent;
use std::alloc::Global;
use table::{Change, Done, Table};
use text::Refusal;

// The room of the table that a program has before the first `table` command.
pub const FIRST_ROOM: u64 = 1000;

// An empty table with so much room, or none where there is no memory for it.
pub fn make(heap: Global, wanted: u64) -> Option<Vec<u32>>
    ensures { IfSome result (λ v. Right 1 v.items × (listed 1 v.items ≡ []) × (room v.items ≡ wanted)) }
{
    let room = u32::try_from(wanted).ok()?;
    let long = table::row_length(room)?;
    let mut row = vec![in heap; 0; long].ok()?;
    table::make_empty(&mut row, room).ok()?;
    Some(row)
}

// Answers a line of bytes, with or without what ends it; its place is its number, counted from 0. Nothing is replied to a line that is passed over.
pub fn respond(heap: Global, row: &mut Vec<u32>, line: &[u8], place: u64) -> Option<Reply>
    ensures says { Responds row.old.items row.new.items line.now place result }
    ensures right { Right 1 row.old.items → Right 1 row.new.items }
{
    follow(heap, row, lines::read(line, place))
}

// Answers what a line was read as, or why it was refused.
pub fn follow(heap: Global, row: &mut Vec<u32>, said: Result<Line, Refusal>) -> Option<Reply>
    ensures says { Follows row.old.items row.new.items said result }
    ensures right { Right 1 row.old.items → Right 1 row.new.items }
{
    match said {
        Ok(Line::Blank) => None,
        Ok(Line::Command(command)) => Some(execute(heap, row, command)),
        Err(refusal) => Some(Reply::Refused(refusal)),
    }
}

// Carries a command out, and says what is replied.
pub fn execute(heap: Global, row: &mut Vec<u32>, command: Command) -> Reply
    ensures says { Serves row.old.items row.new.items command result }
    ensures right { Right 1 row.old.items → Right 1 row.new.items }
{
    match command {
        Command::Basic(command) => execute_basic(heap, row, command),
        Command::List => Reply::Listed(Extent::of::<u32>(row, 3).count),
        Command::Help => Reply::Help,
    }
}

// The same of the commands of `text`.
fn execute_basic(heap: Global, row: &mut Vec<u32>, command: text::Command) -> Reply
    ensures says { Serves row.old.items row.new.items (Basic command) result }
    ensures right { Right 1 row.old.items → Right 1 row.new.items }
{
    match command {
        text::Command::Table { room } => replace(heap, row, room),
        text::Command::Put { bits, len, hop } => put(row, bits, len, hop),
        text::Command::Away { bits, len } => away(row, bits, len),
        text::Command::Look { address } => look(row, address),
        text::Command::Beneath { bits, len } => beneath(row, bits, len),
        text::Command::Nodes => Reply::Nodes(table::nodes(row)),
    }
}

// Puts an empty table in the place of the old one, if there is memory for it.
fn replace(heap: Global, row: &mut Vec<u32>, room: u64) -> Reply
    ensures { Makes row.old.items row.new.items room result }
{
    match make(heap, room) {
        Some(new) => {
            *row = new;
            Reply::Ready
        }
        None => Reply::NoMemory,
    }
}

// Beside `away`: one function for both would take a change and, again, the numbers that it is made of.
fn put(row: &mut [u32], bits: u32, len: u64, hop: u64) -> Reply
    ensures { Changes row.old row.new (Put bits len hop) len hop result }
{
    let mut table = Table::over(row);
    let done = table.apply(Change::Put { bits, len, hop });
    replied(done, len, hop)
}

fn away(row: &mut [u32], bits: u32, len: u64) -> Reply
    ensures { Changes row.old row.new (Away bits len) len 0 result }
{
    let mut table = Table::over(row);
    let done = table.apply(Change::Away { bits, len });
    replied(done, len, 0)
}

fn look(row: &[u32], address: u32) -> Reply
    ensures { Looks row.now address result }
{
    match table::look(row, address) {
        Done::To(hop) => Reply::To(hop),
        _ => Reply::Nowhere,
    }
}

fn beneath(row: &[u32], bits: u32, len: u64) -> Reply
    ensures { Spans row.now len bits result }
{
    let Span { from, to } = beneath::beneath_span(row, bits, len);
    Reply::Beneath { from, to }
}

// What is said of a change. A refusal names its place: the length, or the hop.
fn replied(done: Done, len: u64, hop: u64) -> Reply
    ensures { result ≡ reply_of done len hop }
{
    match done {
        Done::To(hop) => Reply::To(hop),
        Done::Nowhere => Reply::Nowhere,
        Done::Ready => Reply::Ready,
        Done::Full => Reply::Full,
        Done::Without => Reply::Without,
        Done::Refused(table::Refusal::Prefix) => Reply::Refused(Refusal::Prefix { len }),
        Done::Refused(table::Refusal::Hop) => Reply::Refused(Refusal::Hop { hop }),
    }
}
