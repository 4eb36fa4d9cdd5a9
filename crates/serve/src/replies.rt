// What is replied to a command, as a value.
use text::Refusal;

// Routes are told by their places in the table's list, from one to before another.
#[derive(Clone, Copy)]
pub enum Reply {
    To(u64),
    Nowhere,
    Ready,
    Full,
    Without,
    Refused(Refusal),
    NoMemory,
    Beneath { from: usize, to: usize },
    Listed(usize),
    Nodes(u32),
    Help,
}
